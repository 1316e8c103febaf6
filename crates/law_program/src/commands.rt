//! Laws of the runs that commands ask for: each deed of one is licensed by the image's entries, the run is
//! safe, the lines that are written tell what its events did, and a policy that is allowed holds of each run.
//! Functions with empty bodies whose contracts are the laws.

ghost use Rattle.std.specs.Prelude.{◌≡◌, ◌≤◌, ◌++◌, List, ℕ};
ghost use Rattle.def_boot.specs.Boot.{booted_machine};
ghost use Rattle.def_image.specs.Parts.{PartsRow};
ghost use Rattle.def_image.specs.Sound.{Sound};
ghost use Rattle.def_profile.specs.declared.limits.TheConstants.{MOST_STEPS};
ghost use Rattle.def_program.specs.Commands.{Command};
ghost use Rattle.def_program.specs.Licences.{IsLicensedCommand, StandFor};
ghost use Rattle.def_program.specs.Runs.{events_until, last_line, run_lines};
ghost use Rattle.def_program.specs.Scripts.{IsPlayable};
ghost use Rattle.def_script.specs.Script.{Due};
ghost use Rattle.def_step.specs.Events.{AreLawful, run, happenings_of};
ghost use Rattle.def_machine.specs.Platform.{MachineRow};
ghost use Rattle.def_program.specs.Safe.{IsSafeCommand};
ghost use Rattle.def_program.specs.Allowing.{IsAllowed};
ghost use Rattle.def_program.specs.Answers.{Answers};
ghost use Rattle.def_program.specs.Calls.{CallRecord};
ghost use Rattle.def_program.specs.Written.{IsRunWritten, event_lines};
ghost use Rattle.def_program.specs.declared.Status.{Status};
ghost use Rattle.def_events.specs.Kinds.{IsUncounted};

/// The parts that a command's files stand for, whatever bytes these are, are sound (`sound`). Of sound parts: each
/// deed, and each span with interrupts off, of the run that a command asks for is licensed by the image's entries
/// (`licensed`); and the run is safe (`safe`).
///
/// Its calls are clean and its accesses licensed; nothing is loaded, stored, waited for or woken through a capability
/// of an object after its free; each allocation hands out a fresh object; a trap is that of the first check that fails;
/// charges follow what is told; what the thread that carries on holds reaches RAM, devices and native entries alone; a
/// frame's error handler is entered where a trap is told that enters it, and only once; keys and tokens are kept; a
/// freed chunk is handed out again only after a whole sweep that began after its free; and after every event the live
/// charges on each quota are at most its limit. What it tells is what was done, and what is done is told; what an event
/// changes it changes for a reason that is listed; whatever stands comes of what stood, and a capability without GL
/// stands in a stack alone, of all granules. So it is whatever the run's script says.
pub fn commands_are_safe()
    ensures sound { (c : Command) (files : List (List ℕ)) (p : PartsRow)
        → StandFor c files p → Sound p }
    ensures licensed { (c : Command) (p : PartsRow) → Sound p → IsLicensedCommand c p }
    ensures safe { (c : Command) (p : PartsRow) → Sound p → IsSafeCommand c p }
{}

/// The lines of a run are those of what its events did, in their order, each with its step's number,
/// and the summary of the state that they lead to.
pub fn runs_are_told()
    ensures { (m : MachineRow) (script : List Due) (quantum limit : ℕ)
        → run_lines m script quantum limit
        ≡ event_lines 1 (events_until m script quantum limit)
        (happenings_of m.board m.state (events_until m script quantum limit))
        ++ last_line (run m.board m.state (events_until m script quantum limit)) }
{}

/// Of a call that answers Done to a run: what was written is the report line, the lines of a list of what
/// happened, and the summary; that same list is licensed by the entries of the image that the files which
/// were read stand for, and the run of its events is safe. Of `demo` the summary is that of such a run.
pub fn written_runs_are_safe()
    ensures { (e : CallRecord) (s : Status) → Answers e s → IsRunWritten e s }
{}

/// Of a call that answers Done to a `check`: the files that were read are those that stand for parts, and a
/// policy; and what each of its lines means holds of every run of these parts.
pub fn allowed_policies_are_kept()
    ensures { (e : CallRecord) (s : Status) → Answers e s → IsAllowed e s }
{}

/// Each event of a run may come when it comes, where none came before and the script goes to the machine's
/// devices; so from boot.
pub fn runs_are_lawful()
    ensures uncounted { (m : MachineRow) (script : List Due) (quantum limit : ℕ)
        → IsUncounted m.state.counts → IsPlayable script m.state → limit ≤ MOST_STEPS
        → AreLawful m.board m.state (events_until m script quantum limit) }
    ensures booted { (p : PartsRow) (script : List Due) (limit : ℕ)
        → IsPlayable script (booted_machine p).state → limit ≤ MOST_STEPS
        → AreLawful (booted_machine p).board (booted_machine p).state
        (events_until (booted_machine p) script p.quantum limit) }
{}
