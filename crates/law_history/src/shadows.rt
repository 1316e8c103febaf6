//! Laws of shadows: the root and the source of a capability, which the report's entries name, are told
//! in deeds, and no instruction's result depends on them. Functions with empty bodies whose contracts
//! are the laws.

ghost use Rattle.std.specs.Prelude.{◌≡◌, ℕ};
ghost use Rattle.def_instr.specs.declared.Instr.{Instr};
ghost use Rattle.def_events.specs.Alike.{Alike, AroundsAlike, ResultsAlike, SpacesAlike};
ghost use Rattle.def_step.specs.Accesses.{MemoryAndDevices};
ghost use Rattle.def_step.specs.Checks.{first_failed};
ghost use Rattle.def_step.specs.Instructions.{Context, carried_out, fetch_checks, next_at};
ghost use Rattle.def_step.specs.declared.Class.{Class};
ghost use Rattle.def_words.specs.declared.Cap.{Cap};

/// Where two fetches differ in shadows alone, in the program counter and in RAM, the first check that
/// fails is the same, and the same stands at the program counter. Where two instructions differ in
/// shadows alone, in their operands x and y, in the export that the target's root names and in what
/// is around, they tell the same trap, or leave what differs in shadows alone: each tag, each word,
/// each mark, the devices and what was done to one are equal, and so is whether interrupts are on.
pub fn shadows_unread()
    ensures checks { (pcc other : Cap)
        → Alike pcc other
        → first_failed (fetch_checks pcc) ≡ first_failed (fetch_checks other) }
    ensures fetch { (p q : MemoryAndDevices) (at : ℕ)
        → SpacesAlike p q → next_at p at ≡ next_at q at }
    ensures instruction { (k : Class) (i : Instr) (to named other : ℕ) (x y z w : Cap)
        (a b : Context)
        → Alike x z → Alike y w → AroundsAlike a b
        → ResultsAlike (carried_out k i to x y named a) (carried_out k i to z w other b) }
{}
