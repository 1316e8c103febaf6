//! A law of the rows of keys and tokens: what a row says of an object it says as long as it stands, and it stands as
//! long as its object is live. It speaks of the written machine alone.

ghost use Rattle.std.specs.Prelude.{ℕ, ◌<◌, ◌⊎◌, List};
ghost use Rattle.def_confined.specs.Facts.{Facts};
ghost use Rattle.def_confined.specs.Keeps.{Keeps};
ghost use Rattle.def_confined.specs.Partitioned.{Partitioned};
ghost use Rattle.def_machine.specs.Platform.{Platform};
ghost use Rattle.def_machine.specs.Objects.{Any};
ghost use Rattle.def_machine.specs.Rows.{IsLiveOf, RowsFit};
ghost use Rattle.def_machine.specs.State.{State};
ghost use Rattle.def_step.specs.declared.Event.{Event};
ghost use Rattle.def_step.specs.Events.{run};
ghost use Rattle.def_safety.specs.Tokened.{IsKeyRow, IsTokenRow, Tokened};
ghost use Rattle.def_safety.specs.Wired.{Wired};

/// A row keeps its key, by any list of events, lawful or not, and so by each event, the list of it alone. Where a row
/// names a key for an object that was there before, a row named that key for it then (`named`); where such an object
/// has a key's row, it had one then (`keys`). Where a token's row stood, it stands, with the same key, or its object
/// isn't live any more (`kept`). And keys are never freed: a key's row stays a key's row, whatever happens (`last`).
pub fn rows_last()
    ensures named { (b : Platform) (s : State) (es : List Event) (key n : ℕ)
        → n < s.next → Any (IsTokenRow key n) (run b s es).tokens
        → Any (IsTokenRow key n) s.tokens }
    ensures keys { (b : Platform) (s : State) (es : List Event) (n : ℕ)
        → n < s.next → Any (IsKeyRow n) (run b s es).tokens → Any (IsKeyRow n) s.tokens }
    ensures kept { (b : Platform) (s : State) (es : List Event) (key n : ℕ)
        → Keeps b.image s → RowsFit s.objects s.tokens → Any (IsTokenRow key n) s.tokens
        → Any (IsTokenRow key n) (run b s es).tokens ⊎ (Any (IsLiveOf n) (run b s es).objects → ⊥) }
    ensures last { (b : Platform) (s : State) (es : List Event) (n : ℕ)
        → Partitioned b.image → Facts b.image → Wired b → Keeps b.image s
        → RowsFit s.objects s.tokens
        → Tokened b.image s → Any (IsKeyRow n) s.tokens → Any (IsKeyRow n) (run b s es).tokens }
{}
