//! Images run as what they were made of does: one call reads what another wrote.

ghost use Rattle.std.specs.Prelude.{◌≡◌, ◌≤◌, ℕ, List, Option, Some, [], ◌∷◌, ◌++◌, length};
ghost use Rattle.def_boot.specs.Boot.{platform_of, boot_state, booted_machine};
ghost use Rattle.def_image.specs.Parts.{PartsRow, upgraded};
ghost use Rattle.def_report.specs.Report.{report_line};
ghost use Rattle.def_port.specs.Told.{File, TellsSame};
ghost use Rattle.def_program.specs.Answers.{Answers, Whole};
ghost use Rattle.def_program.specs.Beside.{EndsUnlessWanting, IsDoneWith, TellsAll, TellsSameScript};
ghost use Rattle.def_program.specs.Calls.{CallRecord, most};
ghost use Rattle.def_program.specs.Commands.{Image, Run, RunImage, Upgrade, command_form};
ghost use Rattle.def_program.specs.Completing.{NoFault};
ghost use Rattle.def_program.specs.Licences.{LinksTo};
ghost use Rattle.def_program.specs.Runs.{events_until};
ghost use Rattle.def_program.specs.Turns.{Ends, Follows, Turn};
ghost use Rattle.def_program.specs.declared.Status.{Status};
ghost use Rattle.def_program.specs.declared.Status.TheVariants as status;
ghost use Rattle.def_script.specs.Script.{Due};
ghost use Rattle.def_step.specs.Events.{happenings_of};

/// What `run` comes to of a description, `image` and then `runimage` come to, be the run done or its script refused. Of
/// three calls: `image` is done and wrote these bytes; `run` of the same description, over the same files, ended with a
/// status that is no read fault's, and wrote all of the text that was due; and `runimage` reads the bytes, which fit a
/// file, under the same limit and with the same script or none. Where no fault is counted in it, it ends with the same
/// status and writes the same text, or memory was wanted (`calls`).
///
/// By turns: what `image` writes of a description and its sources, `runimage` runs as `run` does of these, by the
/// same script or without one: to the same turn (`turns`).
pub fn stored_images_run_alike()
    ensures calls { (image direct stored : CallRecord) (s due : Status) (name file : List ℕ)
        (limit : ℕ) (script : Option (List ℕ)) (bytes : List ℕ)
        → command_form image.words ≡ Some (Image name)
        → command_form direct.words ≡ Some (Run name limit script)
        → command_form stored.words ≡ Some (RunImage file limit script)
        → TellsAll image.folder → TellsSame image.folder direct.folder
        → TellsSameScript script image.folder stored.folder
        → stored.folder.file file ≡ File bytes → length bytes ≤ most
        → IsDoneWith image bytes
        → (answer : Whole direct due) → (due ≡ status.ReadFault → ⊥)
        → Answers stored s → NoFault stored → EndsUnlessWanting stored s due answer.text }
    ensures turns { (name other bytes written : List ℕ) (sources more : List (List ℕ))
        (p : PartsRow) (limit : ℕ) (script : Option (List ℕ)) (turn : Turn)
        → LinksTo bytes sources p
        → Follows (Image name) (bytes ∷ sources) (Ends status.Done written)
        → Follows (Run name limit script) (bytes ∷ (sources ++ more)) turn
        → Follows (RunImage other limit script) (written ∷ more) turn }
{}

/// What `runimage` comes to of an image, it comes to of the upgraded one. Of three calls: `upgrade` is done of an image
/// and wrote these bytes; `runimage` of the same image ended with a status that is no read fault's, and wrote all of
/// the text that was due; and `runimage` reads the bytes. Where no fault is counted in that call, it ends with the same
/// status and writes the same text, or memory was wanted (`calls`). What happens in both runs is one list, and their
/// reports are one line.
///
/// By turns: what `upgrade` writes of an image, `runimage` runs as it runs the image, by the same script or without
/// one: to the same turn, with the same report and the same lines (`turns`).
pub fn upgraded_images_run_alike()
    ensures calls { (upgrade old new : CallRecord) (s due : Status) (name file : List ℕ)
        (limit : ℕ) (script : Option (List ℕ)) (bytes : List ℕ)
        → command_form upgrade.words ≡ Some (Upgrade name)
        → command_form old.words ≡ Some (RunImage name limit script)
        → command_form new.words ≡ Some (RunImage file limit script)
        → TellsAll upgrade.folder → TellsSame upgrade.folder old.folder
        → TellsSameScript script upgrade.folder new.folder
        → new.folder.file file ≡ File bytes → length bytes ≤ most
        → IsDoneWith upgrade bytes
        → (answer : Whole old due) → (due ≡ status.ReadFault → ⊥)
        → Answers new s → NoFault new → EndsUnlessWanting new s due answer.text }
    ensures turns { (name other file bytes written : List ℕ) (more : List (List ℕ)) (limit : ℕ)
        (script : Option (List ℕ)) (turn : Turn)
        → Follows (Upgrade name) (bytes ∷ []) (Ends status.Done written)
        → Follows (RunImage other limit script) (bytes ∷ more) turn
        → Follows (RunImage file limit script) (written ∷ more) turn }
    ensures happenings { (p : PartsRow) (script : List Due) (limit : ℕ)
        → happenings_of (platform_of (upgraded p)) (boot_state (upgraded p))
        (events_until (booted_machine (upgraded p)) script (upgraded p).quantum limit)
        ≡ happenings_of (platform_of p) (boot_state p)
        (events_until (booted_machine p) script p.quantum limit) }
    ensures report { (p : PartsRow) → report_line (upgraded p) ≡ report_line p }
{}
