//! Laws of whole moves: an allocation and a free, a call that enters its callee, the end of a frame, a register that is
//! written, a thread whose status changes and a slice of a sweep keep a state confined, and all that stands beside; the
//! deeds of a confined state are licensed. Native routines are made of these moves.
#![tactic(auto)]

mod licensed;
mod sweeps;

ghost use Rattle.std.specs.Prelude.{◌≡◌, ℕ, List, Some, None};
ghost use Rattle.def_words.specs.declared.Cap.{Cap};
ghost use Rattle.def_sched.specs.declared.Status.{Status};
ghost use Rattle.def_machine.specs.Image.{Image};
ghost use Rattle.def_machine.specs.State.{State, Frame, Object, thread};
ghost use Rattle.def_machine.specs.Frames.{Given, switched, ended_with, entered, returned, unwound};
ghost use Rattle.def_machine.specs.Heap.{with_object, freed, swept};
ghost use Rattle.def_machine.specs.Registers.{put_register};
ghost use Rattle.def_machine.specs.Threads.{Clockwork, changed, with_status};
ghost use Rattle.def_confined.specs.Changes.{Frees, Puts};
ghost use Rattle.def_confined.specs.Keeps.{Keeps};
ghost use Rattle.def_confined.specs.Partitioned.{Partitioned};
ghost use Rattle.def_confined.specs.Premises.{Allocates, HasRoom, Turns};

pub use licensed::deeds_licensed;
pub use sweeps::sweeps_end_clean;

/// Each move of a native routine or a sweep keeps a state confined, with all that stands beside. An object that may be
/// put beside the others, with its capability in a register of the running thread (`allocate`), and a live object freed
/// by it, whose registers pass the load filter (`free`); a call whose checks passed, which enters its callee (`call`);
/// a register of the running thread that gets what it may get (`register`); the running thread stopped, ready, sleeping
/// or waiting (`stop`), and any thread with frames given such a status (`status`); the innermost frame of the running
/// thread ended by a return, with a value or by an unwind, where the end of the last one is the thread's (`returned`,
/// `value`, `unwound`); and one event of the revoker: where none runs and a chunk is quarantined, a sweep begins, a
/// slice is passed, and where all of RAM is, the painted chunks leave (`sweep`).
pub fn moves_keep()
    ensures allocate { (i : Image) (s : State) (t n : ℕ) (r : Object) (c : Cap)
        → Partitioned i → Keeps i s → Allocates i s t r c
        → Keeps i (put_register (with_object s r) t n c) }
    ensures free { (i : Image) (s : State) (t : ℕ) (r : Object)
        → Partitioned i → Keeps i s → Frees s t r → Keeps i (freed i s t r) }
    ensures call { (i : Image) (s : State) (t : ℕ) (g : Frame) (gs : List Frame)
        (callee export high : ℕ) (w : Given)
        → Partitioned i → Keeps i s → HasRoom i s t g gs callee export high w
        → Keeps i (switched i s t high (entered i (thread s t) callee export high w) s.running) }
    ensures register { (i : Image) (s : State) (t n : ℕ) (c : Cap)
        → Keeps i s → s.running ≡ Some t → Puts i s t c → Keeps i (put_register s t n c) }
    ensures stop { (i : Image) (s : State) (t : ℕ) (status : Status) (w : Clockwork)
        → Keeps i s → s.running ≡ Some t → Turns s t status
        → Keeps i (changed s t (with_status (thread s t) status) None w) }
    ensures status { (i : Image) (s : State) (t : ℕ) (status : Status) (w : Clockwork)
        → Keeps i s → Turns s t status
        → Keeps i (changed s t (with_status (thread s t) status) s.running w) }
    ensures returned { (i : Image) (s : State) (t : ℕ)
        → Partitioned i → Keeps i s → s.running ≡ Some t
        → Keeps i (returned i s t (thread s t).frames) }
    ensures value { (i : Image) (s : State) (t value : ℕ)
        → Partitioned i → Keeps i s → s.running ≡ Some t
        → Keeps i (ended_with i s t value (thread s t).frames) }
    ensures unwound { (i : Image) (s : State) (t : ℕ)
        → Partitioned i → Keeps i s → s.running ≡ Some t
        → Keeps i (unwound i s t (thread s t).frames) }
    ensures sweep { (i : Image) (s : State) → Partitioned i → Keeps i s → Keeps i (swept i s) }
{}
