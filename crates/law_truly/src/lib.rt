//! Laws that tie what a machine tells to what it does: what is told was done, what is done is told, a step whose check
//! fails does nothing but trap, and the thread carries on whose turn it is; and laws that say in plain facts what the
//! written machine's rules and other laws share. They speak of the written machine alone.
#![tactic(auto)]

ghost use Rattle.std.specs.Prelude.{◌≡◌, ◌<◌, ◌↔◌, ℕ, true, false, List, Some, None, length};
ghost use Rattle.def_boot.specs.Boot.{boot_state, platform_of};
ghost use Rattle.def_confined.specs.Facts.{Facts};
ghost use Rattle.def_confined.specs.Keeps.{Keeps};
ghost use Rattle.def_confined.specs.Partitioned.{Partitioned};
ghost use Rattle.def_image.specs.Parts.{PartsRow};
ghost use Rattle.def_image.specs.Sound.{Sound};
ghost use Rattle.def_machine.specs.Image.{Image};
ghost use Rattle.def_native.specs.declared.TheConstants.{WAIT, WAKE};
ghost use Rattle.def_machine.specs.Objects.{placed_among, quarantine};
ghost use Rattle.def_machine.specs.Platform.{Platform};
ghost use Rattle.def_machine.specs.State.{Object, State, Thread, thread};
ghost use Rattle.def_safety.specs.Each.{EachEvent, ready};
ghost use Rattle.def_safety.specs.Traps.{AllHold, FirstFails};
ghost use Rattle.def_safety.specs.Wired.{Wired};
ghost use Rattle.def_step.specs.Checks.{Check, first_failed};
ghost use Rattle.def_step.specs.declared.Event.{Event};
ghost use Rattle.def_step.specs.Events.{happens};
ghost use Rattle.def_step.specs.Routines.{answers};
ghost use Rattle.def_truly.specs.Answers.{AnswersNoMore};
ghost use Rattle.def_truly.specs.Postures.{IsPostureThrough};
ghost use Rattle.def_words.specs.declared.Cap.{Cap};
ghost use Rattle.def_words.specs.declared.Posture.{Posture};
ghost use Rattle.def_words.specs.declared.Trap.{Trap};
ghost use Rattle.def_words.specs.Seals.{posture_through};
ghost use Rattle.def_truly.specs.ThreadEnds.{EndsThread};
ghost use Rattle.def_step.specs.declared.Access.{Access};
ghost use Rattle.def_truly.specs.FailedChecks.{FailsTrap};
ghost use Rattle.def_truly.specs.Orders.{
  CallOrder,
  FetchOrder,
  GateOrder,
  JumpOrder,
  LoadOrder,
  ReturnOrder,
  StackOrder,
  StoreOrder,
  WaitOrder,
  WordOrder,
};
ghost use Rattle.def_truly.specs.Instructions.{InstructionsKeep};
ghost use Rattle.def_events.specs.Running.{RunsFramed};
ghost use Rattle.def_truly.specs.DeviceAccesses.{AccessesTold};
ghost use Rattle.def_truly.specs.Exactly.{TellsExactly};
ghost use Rattle.def_truly.specs.Deeds.{TellsTruly};
ghost use Rattle.def_truly.specs.Rows.{IsPutAmong, IsTakenBack};
ghost use Rattle.def_truly.specs.Turns.{TakesTurn, TicksStop, TurnsStay};
ghost use Rattle.def_truly.specs.Changes.{SilenceKeeps, TellsAll};

/// What an event, lawful or not, tells was done. A deed is of a step, by the running thread, and its actor is the
/// compartment of that thread's innermost frame. A load or store stands at the program counter, its checks pass, the
/// entry is the root of the capability that it goes through, address, width and value are those of the access, the
/// device is left as it leaves it, and a load's register gets the value; a call is of the switch, by the root of c6,
/// and pushes a frame of the export's compartment with the caller's registers; an allocation and a free are of a
/// routine whose c1 leads back, by the root of c10, of the object that they put among the others or quarantine; a
/// trap names no entry, and is that of the first check that fails. A span with interrupts off begins in this step, by
/// the running thread.
pub fn deeds_tell_truly()
    ensures { (b : Platform) (s : State) (e : Event)
        → Partitioned b.image → Keeps b.image s → RunsFramed s → TellsTruly b s e }
{}

/// A thread that runs has a frame: every event keeps it, and so has the thread that a step picks (`picked`); at boot
/// none runs.
pub fn running_framed()
    ensures kept { (b : Platform) (s : State) (e : Event)
        → Keeps b.image s → RunsFramed s → RunsFramed (happens b s e).0 }
    ensures picked { (b : Platform) (s : State)
        → Keeps b.image s → RunsFramed s → RunsFramed (ready b s) }
    ensures boots { (p : PartsRow) → RunsFramed (boot_state p) }
{}

/// What an event does is told: where devices change, frames grow, an object is made or a live one goes, it tells the
/// deed; and a thread that runs on with interrupts off where no span is told held them off before, by the same source
/// (`all`). So where no deed is told all of these are as before, but for an input's device (`nothing`). And an access
/// whose checks pass and that reaches a device is told, whether it changes the device or not (`accesses`).
pub fn deeds_tell_all()
    ensures all { (b : Platform) (s : State) (e : Event) → Keeps b.image s → TellsAll b s e }
    ensures nothing { (b : Platform) (s : State) (e : Event)
        → Keeps b.image s → SilenceKeeps b s e }
    ensures accesses { (b : Platform) (s : State) → AccessesTold b s }
{}

/// A step of which a check fails tells the trap of the first that does, and does what the trap does, and nothing else
/// (`traps`). An instruction that is carried out changes no register of its thread but the one that it names, neither
/// its frames nor its status, and interrupts only where it is a jump (`instructions`). A thread whose only frame
/// returns, or traps without an error handler, ends: none runs then, it holds nothing, and its stack is zero and
/// untagged up to the frame's top (`ends`).
pub fn steps_do_no_more()
    ensures traps { (b : Platform) (s : State) → FailsTrap b s }
    ensures instructions { (b : Platform) (s : State) → InstructionsKeep b s }
    ensures ends { (b : Platform) (s : State) → EndsThread b s }
{}

/// In a step the thread carries on whose turn it is: the one that ran, unless a tick is pending and it runs with
/// interrupts on, and else the scheduler's choice, the foremost of the ready ones in the order of last picks
/// (`steps`). A tick stops the one that runs, unless it holds interrupts off: then it stays pending (`ticks`). Sweeps
/// and inputs change nothing of it (`stays`).
pub fn turns_are_taken()
    ensures steps { (b : Platform) (s : State) → TakesTurn b s }
    ensures ticks { (b : Platform) (s : State) → TicksStop b s }
    ensures stays { (b : Platform) (s : State) → TurnsStay b s }
{}

/// What the written machine's rules and other laws share, in plain facts. A list of checks passes exactly where all of
/// them hold (`passes`), and the trap that it gives is that of the first that doesn't (`fails`). What `posture_through`
/// gives is what a jump or a return does to interrupts, and nothing else is (`postures`). What `answers` leaves of a
/// state, where the thread has registers up to c11: that thread is answered, and all else is as it was (`answers`). And
/// what an allocation (`placed`) and a free (`quarantined`) make of the heap's rows.
pub fn shared_rules_are_plain()
    ensures passes { (cs : List Check) → (first_failed cs ≡ None) ↔ AllHold cs }
    ensures fails { (cs : List Check) (why : Trap)
        → (first_failed cs ≡ Some why) ↔ FirstFails cs why }
    ensures postures { (before : Posture) (kind named source : ℕ) (after : Posture)
        → (posture_through before kind named source ≡ after)
        ↔ IsPostureThrough before kind named source after }
    ensures answers { (s : State) (t : ℕ) (value : Cap) → 11 < length (thread s t).registers
        → AnswersNoMore s t value (answers s t value) }
    ensures placed { (r : Object) (rs : List Object) → IsPutAmong r rs (placed_among r rs) }
    ensures quarantined { (n : ℕ) (rs : List Object) → IsTakenBack n rs (quarantine n rs) }
{}

/// Where several checks fail, the trap is of the one that comes first, and where none does there is none: of a fetch
/// (`fetch`), a load (`load`), a store (`store`), a jump by a register (`jump`), the word of a wait or a wake (`word`),
/// before which these look at their way back (`wait`, `wake`), and a call: what it asks of its way back (`back`), of
/// its import (`gate`), of its stack (`stack`), in this order (`call`).
pub fn checks_stand_in_order()
    ensures fetch { (pcc : Cap) → FetchOrder pcc }
    ensures load { (a : Access) (x y : Cap) (at : ℕ) → a.loads ≡ true → LoadOrder a x y at }
    ensures store { (a : Access) (x y : Cap) (at : ℕ) → a.loads ≡ false → StoreOrder a x y at }
    ensures jump { (to at : ℕ) (x : Cap) (n : ℕ) → JumpOrder to at x n }
    ensures word { (i : Image) (s : State) (c : Cap) → WordOrder i s c }
    ensures back { (c : Cap) → ReturnOrder c }
    ensures gate { (c : Cap) → GateOrder c }
    ensures stack { (base top : ℕ) (c : Cap) → StackOrder base top c }
    ensures call { (base top : ℕ) (caller : Thread) → CallOrder base top caller }
    ensures wait { (i : Image) (s : State) (t : ℕ) → WaitOrder i s t WAIT }
    ensures wake { (i : Image) (s : State) (t : ℕ) → WaitOrder i s t WAKE }
{}

/// All of these of each event of a list (`events`), and of the machine of a sound image, whatever list of events
/// comes from its boot (`images`).
pub fn runs_tell_exactly()
    ensures events { (b : Platform) (s : State) (es : List Event)
        → Partitioned b.image → Facts b.image → Wired b → Keeps b.image s → RunsFramed s
        → EachEvent (TellsExactly b) b s es }
    ensures images { (p : PartsRow) (es : List Event) → Sound p
        → EachEvent (TellsExactly (platform_of p)) (platform_of p) (boot_state p) es }
{}
