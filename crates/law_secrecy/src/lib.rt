//! Laws of *Secrecy*: what a thread does goes by what it may see, and what it can't see never flows into what it
//! does. They speak of the written machine alone.
#![tactic(auto)]

ghost use Rattle.std.specs.Prelude.{◌≡◌, List, ℕ, Some};
ghost use Rattle.def_boot.specs.Boot.{boot_state, image_of, platform_of};
ghost use Rattle.def_confined.specs.Confined.{Confined};
ghost use Rattle.def_confined.specs.Facts.{Facts};
ghost use Rattle.def_confined.specs.Keeps.{Keeps};
ghost use Rattle.def_confined.specs.Partitioned.{Partitioned};
ghost use Rattle.def_hidden.specs.Hidden.{Blank, Shut};
ghost use Rattle.def_image.specs.Parts.{PartsRow};
ghost use Rattle.def_image.specs.Sound.{Sound};
ghost use Rattle.def_machine.specs.Memory.{bytes_stored};
ghost use Rattle.def_machine.specs.Platform.{Platform};
ghost use Rattle.def_machine.specs.State.{State, thread};
ghost use Rattle.def_safety.specs.Each.{ready};
ghost use Rattle.def_safety.specs.Wired.{Wired};
ghost use Rattle.def_step.specs.declared.Event.{Event};
ghost use Rattle.def_step.specs.declared.Event.TheVariants.{Input, Step};
ghost use Rattle.def_step.specs.Events.{happens};
ghost use Rattle.def_step.specs.Instructions.{actor_of};
ghost use Rattle.def_secrecy.specs.Agreeing.{Agree};
ghost use Rattle.def_secrecy.specs.Others.{ApartInReport, MayAccess, OutOfReach, StepsAway, ViewStays};
ghost use Rattle.def_secrecy.specs.Runs.{AlikeForOne, AlikeInAll, Moment, OthersStayAway, after_boot};
ghost use Rattle.def_secrecy.specs.Secrecy.{EventSecret, GoesByView, NoOtherRuns, Secrecy};
ghost use Rattle.def_secrecy.specs.View.{SeesDevice, UnseenBytes};

/// Every step is secret. It reads nothing but its thread's view: of two states that agree on it the same checks of a
/// fetch, load or store fail, the same stands at the program counter, and the same is loaded, whatever else they hold
/// (`view`). Of two states in which the same thread carries on, and of which it sees the same, its step tells the same
/// deed, whatever it does; and unless it calls, returns or unwinds, the thread sees the same of what is left (`steps`).
/// So is every event by which no other thread carries on: a tick, a slice of a sweep and an input as well as a step.
/// Spans with interrupts off are told the same too, unless the thread calls, returns or unwinds (`events`).
pub fn steps_are_secret()
    ensures view { (b : Platform) (s z : State) (t : ℕ)
        → Partitioned b.image → Wired b → Confined b.image s → Confined b.image z
        → s.running ≡ Some t → Agree b t s z → GoesByView b s z t }
    ensures steps { (b : Platform) → Secrecy b }
    ensures events { (b : Platform) (s z : State) (t : ℕ) (e : Event)
        → Partitioned b.image → Wired b → Confined b.image s → Confined b.image z
        → Blank b.image s → Blank b.image z
        → Agree b t s z → NoOtherRuns b s t e → EventSecret b s z t e }
{}

/// A step of another thread that may change nothing of what a thread sees leaves that as it was, but for what is public
/// (`stays`). Threads whose compartments are apart as the report has them are out of one another's reach in every
/// confined state, where no device is for both to access (`reach`); so a step of the one is away from what the other
/// sees (`steps`).
pub fn others_stay_unseen()
    ensures stays { (b : Platform) (s : State) (t u : ℕ)
        → Partitioned b.image → Wired b → Confined b.image s
        → (ready b s).running ≡ Some u → (t ≡ u → ⊥) → OutOfReach b (ready b s) t u
        → ViewStays b t s (happens b s Step).0 }
    ensures reach { (b : Platform) (s : State) (t u : ℕ)
        → Partitioned b.image → Facts b.image → Confined b.image s → (t ≡ u → ⊥)
        → ApartInReport b.image t (actor_of (thread s t).frames) u (actor_of (thread s u).frames)
        → ((m : ℕ) → SeesDevice b (thread s t).frames m → MayAccess b (thread s u).frames m → ⊥)
        → OutOfReach b s t u }
    ensures steps { (b : Platform) (s : State) (t u : ℕ)
        → Partitioned b.image → Facts b.image → Wired b → Confined b.image s
        → (ready b s).running ≡ Some u → (t ≡ u → ⊥)
        → ApartInReport b.image t (actor_of (thread (ready b s) t).frames) u
        (actor_of (thread (ready b s) u).frames)
        → ((m : ℕ) → SeesDevice b (thread (ready b s) t).frames m
        → MayAccess b (thread (ready b s) u).frames m → ⊥)
        → StepsAway b t s }
{}

/// Two runs that a thread sees the same of tell it the same. They begin in states that agree on the thread's view,
/// and between its own events others act in each run as they like, as long as the thread sees the same of what they
/// leave (`seen`); or as long as they reach nothing that it sees, and what is public agrees when they have acted
/// (`away`). Then each event that comes to both, the thread's steps among them, tells the same deed in both; and where
/// the thread stays in its frame all that is told is the same, it sees the same after, and so on.
pub fn runs_are_secret()
    ensures seen { (b : Platform) (s z : State) (t : ℕ) (ms : List Moment)
        → Partitioned b.image → Facts b.image → Wired b → Shut b.image
        → Keeps b.image s → Keeps b.image z → Blank b.image s → Blank b.image z
        → Agree b t s z → AlikeForOne b t s z ms → AlikeInAll b t s z ms }
    ensures away { (b : Platform) (s z : State) (t : ℕ) (ms : List Moment)
        → Partitioned b.image → Facts b.image → Wired b → Shut b.image
        → Keeps b.image s → Keeps b.image z → Blank b.image s → Blank b.image z
        → Agree b t s z → OthersStayAway b t s z ms → AlikeInAll b t s z ms }
{}

/// The same of the machine of every sound image, in any two states that lists of events lead to from its boot: of one
/// event (`event`), and of the runs that go on from there (`seen`, `away`).
pub fn images_are_secret()
    ensures event { (p : PartsRow) (es fs : List Event) (t : ℕ) (e : Event) → Sound p
        → Agree (platform_of p) t (after_boot p es) (after_boot p fs)
        → NoOtherRuns (platform_of p) (after_boot p es) t e
        → EventSecret (platform_of p) (after_boot p es) (after_boot p fs) t e }
    ensures seen { (p : PartsRow) (es fs : List Event) (t : ℕ) (ms : List Moment) → Sound p
        → Agree (platform_of p) t (after_boot p es) (after_boot p fs)
        → AlikeForOne (platform_of p) t (after_boot p es) (after_boot p fs) ms
        → AlikeInAll (platform_of p) t (after_boot p es) (after_boot p fs) ms }
    ensures away { (p : PartsRow) (es fs : List Event) (t : ℕ) (ms : List Moment) → Sound p
        → Agree (platform_of p) t (after_boot p es) (after_boot p fs)
        → OthersStayAway (platform_of p) t (after_boot p es) (after_boot p fs) ms
        → AlikeInAll (platform_of p) t (after_boot p es) (after_boot p fs) ms }
{}

/// An instance: bytes that a thread doesn't see may be anything. A state agrees on the thread's view with the one in
/// which other bytes stand there (`agrees`), so that each event by which no other thread carries on tells the same of
/// both (`event`). And the machine of a sound image, booted with other bytes where a thread sees none, tells that
/// thread the same for as long as others stay away from what it sees (`boots`). And bytes that come to
/// a device that a thread may not load from may be any, and leave its view agreeing (`inputs`).
pub fn secrets_stay()
    ensures agrees { (b : Platform) (s : State) (t x width value : ℕ)
        → UnseenBytes b.image s t x width
        → Agree b t s (bytes_stored b.image s x width value) }
    ensures event { (b : Platform) (s : State) (t x width value : ℕ) (e : Event)
        → Partitioned b.image → Wired b → Keeps b.image s → Blank b.image s
        → UnseenBytes b.image s t x width → NoOtherRuns b s t e
        → EventSecret b s (bytes_stored b.image s x width value) t e }
    ensures boots { (p : PartsRow) (t x width value : ℕ) (ms : List Moment) → Sound p
        → UnseenBytes (image_of p) (boot_state p) t x width
        → OthersStayAway (platform_of p) t (boot_state p)
        (bytes_stored (image_of p) (boot_state p) x width value) ms
        → AlikeInAll (platform_of p) t (boot_state p)
        (bytes_stored (image_of p) (boot_state p) x width value) ms }
    ensures inputs { (b : Platform) (s z : State) (t n one other : ℕ)
        → (SeesDevice b (thread s t).frames n → ⊥) → Agree b t s z
        → Agree b t (happens b s (Input n one)).0 (happens b z (Input n other)).0 }
{}
