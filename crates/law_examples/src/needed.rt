//! Why the invariant has a fact beside its parts: without it a return leads out of it.

ghost use Rattle.std.specs.Prelude.{[], ◌∷◌};
ghost use Rattle.def_machine.specs.Frames.{returned};
ghost use Rattle.def_confined.specs.Confined.{Confined};
ghost use Rattle.law_examples.specs.WithoutExports.{without_exports};
ghost use Rattle.law_examples.specs.Apart.{two, before, inner, outermost};

/// Two compartments that aren't joined; a thread in the second's export, which passes capabilities, holds the
/// second's globals in c10. All of the invariant holds but that the frame is joined to its caller: it holds of the
/// state without its frames' exports, of which that isn't asked. After the return the globals stand in the first
/// compartment's register, and so it holds no longer.
pub fn joined_frames_needed()
    ensures before { Confined two (without_exports before) }
    ensures after { Confined two
        (without_exports (returned two before 0 (inner ∷ outermost ∷ [])))
        → ⊥ }
{}
