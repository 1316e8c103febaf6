//! Lines of a run, computed: one of each kind of deed, and a summary of each kind of end.
#![tactic(auto)]

ghost use Rattle.std.specs.Prelude.{◌≡◌, ◌++◌, [], ◌∷◌, codes};
ghost use Rattle.ct_entry.specs.declared.acts.Act.TheVariants.{Call, Load, Store, Allocate, Free, Trap};
ghost use Rattle.ct_entry.specs.declared.acts.End.TheVariants.{Limit, Finished, Idle};
ghost use Rattle.def_trace.specs.Trace.{deed_line, off_line, summary_line};
ghost use Rattle.def_trace.specs.Quiet.{quiet};

/// A store and a load of a serial port, a call, an allocation, a free, a trap, a span with interrupts off. And the
/// summaries of runs that end at a limit, by all threads' end, and with none to run.
pub fn lines_are_written()
    ensures store { deed_line 4
        (record { thread = 0; actor = 0; entry = 4; act = Store 0x10000000 4 65 })
        ≡ codes "4 store t0 c0 e4 10000000 4 00000041" ++ 10 ∷ [] }
    ensures byte { deed_line 43
        (record { thread = 0; actor = 1; entry = 12; act = Store 0x10000000 1 55 })
        ≡ codes "43 store t0 c1 e12 10000000 1 37" ++ 10 ∷ [] }
    ensures load { deed_line 3
        (record { thread = 0; actor = 0; entry = 4; act = Load 0x10000000 4 65 })
        ≡ codes "3 load t0 c0 e4 10000000 4 00000041" ++ 10 ∷ [] }
    ensures call { deed_line 20 (record { thread = 0; actor = 0; entry = 5; act = Call 13 })
        ≡ codes "20 call t0 c0 e5 e13" ++ 10 ∷ [] }
    ensures allocate { deed_line 28
        (record { thread = 1; actor = 0; entry = 7; act = Allocate 2 0x80000578 24 64 })
        ≡ codes "28 allocate t1 c0 e7 n2 80000578 24 64" ++ 10 ∷ [] }
    ensures free { deed_line 33
        (record { thread = 1; actor = 0; entry = 7; act = Free 2 0x80000578 24 32 })
        ≡ codes "33 free t1 c0 e7 n2 80000578 24 32" ++ 10 ∷ [] }
    ensures trap { deed_line 2 (record { thread = 0; actor = 0; entry = 0; act = Trap 28 2 5 })
        ≡ codes "2 trap t0 c0 28 2 5" ++ 10 ∷ [] }
    ensures off { off_line 3 (record { thread = 0; actor = 0; export = 7 })
        ≡ codes "3 off t0 c0 e7" ++ 10 ∷ [] }
    ensures limit { summary_line (quiet Limit 3)
        ≡ codes "end limit steps 3 ticks 0 calls 0 devices 0 allocations 0 frees 0 traps 0"
        ++ 10 ∷ [] }
    ensures finished { summary_line
        (record (quiet Finished 56) { ticks = 2; calls = 2; devices = 2; allocations = 2 })
        ≡ codes "end finished steps 56 ticks 2 calls 2 devices 2 allocations 2 frees 0 traps 0"
        ++ 10 ∷ [] }
    ensures idle { summary_line (quiet Idle 6)
        ≡ codes "end idle steps 6 ticks 0 calls 0 devices 0 allocations 0 frees 0 traps 0"
        ++ 10 ∷ [] }
{}
