//! Laws of the moves that instructions and picks are made of, each whole: a store, a load, a jump or an advance, a
//! pick, a stop and the clockwork's course keep a state confined, what the running sweep has passed free of
//! capabilities of painted objects, and all else that stands beside. law_moves has those that native routines are made
//! of, and that of a sweep.
#![tactic(auto)]

ghost use Rattle.std.specs.Prelude.{◌≡◌, ◌%◌, ℕ, List, [], Some, None, true};
ghost use Rattle.def_words.specs.declared.Cap.{Cap};
ghost use Rattle.def_words.specs.declared.Posture.{Posture};
ghost use Rattle.def_words.specs.Permissions.{has, load_data, store_data, memory_capability};
ghost use Rattle.def_machine.specs.Image.{Image, granule_of};
ghost use Rattle.def_machine.specs.State.{State, register, thread, granule};
ghost use Rattle.def_machine.specs.Memory.{cap_stored, bytes_stored, filtered};
ghost use Rattle.def_machine.specs.Registers.{put_register};
ghost use Rattle.def_machine.specs.Threads.{Clockwork, changed, jumped, picked};
ghost use Rattle.def_confined.specs.Changes.{Jumps};
ghost use Rattle.def_confined.specs.Keeps.{Keeps};
ghost use Rattle.def_confined.specs.Made.{Derived};
ghost use Rattle.def_confined.specs.Partitioned.{Partitioned};
ghost use Rattle.def_confined.specs.Authorises.{Authorises};
ghost use Rattle.def_confined.specs.Clock.{with_clock};

/// Each move of an instruction or a pick keeps a state confined, with all that stands beside. A store of a capability,
/// which keeps its tag only as the authorising register allows (`capability`), and of plain bytes (`bytes`); a load of
/// a capability: what is derived from the granule's, tagged only where the authorising register may load capabilities,
/// comes through the load filter into a register of the running thread (`load`); a jump of the running thread, or the
/// advance of its program counter, with a register that gets a value (`jump`); a thread is picked where none runs, and
/// what it holds passes the load filter (`pick`); the running thread stops (`stop`); the pending flag, the time, the
/// devices, the picks and the counts of events and deeds but allocations change (`clock`).
pub fn each_move_keeps()
    ensures capability { (i : Image) (s : State) (t at from x : ℕ)
        → Partitioned i → Keeps i s → Authorises i s t at store_data x → x % 8 ≡ 0
        → ((register (thread s t) from).tag ≡ true
        → has (register (thread s t) at) memory_capability ≡ true)
        → Keeps i (cap_stored i s x (register (thread s t) at) (register (thread s t) from)) }
    ensures bytes { (i : Image) (s : State) (t at x width value : ℕ)
        → Partitioned i → Keeps i s → Authorises i s t at store_data x
        → Keeps i (bytes_stored i s x width value) }
    ensures load { (i : Image) (s : State) (t at x n : ℕ) (d : Cap)
        → Partitioned i → Keeps i s → Authorises i s t at load_data x → x % 8 ≡ 0
        → Derived (granule s (granule_of i x)).cap d
        → (d.tag ≡ true → has (register (thread s t) at) memory_capability ≡ true)
        → Keeps i (put_register s t n (filtered i s d)) }
    ensures jump { (i : Image) (s : State) (t to : ℕ) (pcc : Cap) (posture : Posture) (link : Cap)
        (w : Clockwork)
        → Keeps i s → s.running ≡ Some t → ((thread s t).frames ≡ [] → ⊥)
        → Jumps i s t pcc posture link
        → Keeps i (changed s t (jumped (thread s t) pcc posture to link) s.running w) }
    ensures pick { (i : Image) (s : State) (t : ℕ) (w : Clockwork)
        → Partitioned i → Keeps i s → s.running ≡ None
        → Keeps i (changed s t (picked i s (thread s t)) (Some t) w) }
    ensures stop { (i : Image) (s : State) (w : Clockwork)
        → Keeps i s → Keeps i (with_clock (record s { running = None }) w) }
    ensures clock { (i : Image) (s : State) (w : Clockwork)
        → Keeps i s → Keeps i (with_clock s w) }
{}
