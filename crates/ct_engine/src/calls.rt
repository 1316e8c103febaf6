//! What a callee is given.

ghost use Rattle.std.specs.Prelude.{ℕ, ◌≡◌};
ghost use Rattle.def_machine.specs.Image.{Image};
ghost use Rattle.def_machine.specs.Frames.{callee_start};
ghost use Rattle.ct_switch.specs.Exports.{callee_of};
ghost use Rattle.ct_engine.specs.Seen.{EngineRow, thread};
ghost use Rattle.ct_engine.specs.Calls.{given_at, HeadStands};

/// Where the head of its export table is as boot made it, a callee is given what the machine's definitions give it.
pub fn callee_given()
    ensures { (i : Image) (s : EngineRow) (t export high : ℕ) → HeadStands i s t export
        → given_at s i.entries t export high
        ≡ callee_start i (thread s t) t (callee_of i.entries export) export high }
{}
