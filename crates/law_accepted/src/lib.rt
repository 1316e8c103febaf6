//! The machine of every accepted image, whatever its code bytes, and so of every image that lawful rows and sources
//! are linked to; and what a policy that holds says of its runs. Functions with empty bodies whose contracts are the
//! laws.
#![tactic(auto)]

mod allowed;
mod within;

ghost use Rattle.std.specs.Prelude.{◌≤◌, List, [], ℕ};
ghost use Rattle.def_boot.specs.Boot.{platform_of, boot_state, image_of};
ghost use Rattle.def_confined.specs.Confined.{Confined};
ghost use Rattle.def_confined.specs.Keeps.{Keeps};
ghost use Rattle.def_confined.specs.Partitioned.{Partitioned};
ghost use Rattle.def_confined.specs.Telling.{AllLicensed};
ghost use Rattle.def_desc.specs.Rows.{DescRow};
ghost use Rattle.def_image.specs.Accepted.{IsFaultless, IsImage};
ghost use Rattle.def_image.specs.Parts.{PartsRow};
ghost use Rattle.def_image.specs.Sound.{Sound};
ghost use Rattle.def_machine.specs.Image.{root};
ghost use Rattle.def_machine.specs.Objects.{charges};
ghost use Rattle.def_step.specs.Events.{run, happenings_of};
ghost use Rattle.def_step.specs.declared.Event.{Event};
ghost use Rattle.def_events.specs.Upheld.{Upholds};
ghost use Rattle.def_integrity.specs.Homes.{HomesKept, HomesStay};
ghost use Rattle.def_integrity.specs.Integrity.{Integrity};
ghost use Rattle.def_safety.specs.Attenuates.{LocalsInStacks};
ghost use Rattle.def_safety.specs.Chunks.{SweptBeforeReuse, UnusedAfterFree};
ghost use Rattle.def_truly.specs.Exactly.{TellsExactly};
ghost use Rattle.def_safety.specs.Each.{EachEvent};
ghost use Rattle.law_image_samples.specs.Tiny.{tiny};
ghost use Rattle.def_link.specs.Links.{RowsLinkTo};
ghost use Rattle.law_link_samples.specs.Samples.{board_rows, board_sources, tiny_rows};

pub use allowed::policies_hold_over_runs;
use law_link_samples::samples_link;
pub use within::machines_stay_within;

/// Of any bytes that are an image: the machine's image of its parts is partitioned; the machine is confined after any
/// list of events from its boot, and each deed and each span with interrupts off that these tell is licensed by the
/// image's entries (`partitioned`, `confined`, `licensed`). The same of the parts that lawful rows and their sources
/// are linked to (`linked_partitioned`, `linked_confined`, `linked_licensed`).
///
/// And of every sound image: the machine is confined, with what stands beside, and what it tells is licensed
/// (`sound_keeps`, `sound_licensed`).
pub fn accepted_images_run()
    ensures partitioned { (bytes : List ℕ) (p : PartsRow) → IsImage bytes p
        → Partitioned (image_of p) }
    ensures confined { (bytes : List ℕ) (p : PartsRow) (es : List Event) → IsImage bytes p
        → Confined (image_of p) (run (platform_of p) (boot_state p) es) }
    ensures licensed { (bytes : List ℕ) (p : PartsRow) (es : List Event) → IsImage bytes p
        → AllLicensed (image_of p).entries (happenings_of (platform_of p) (boot_state p) es) }
    ensures linked_partitioned { (d : DescRow) (sources : List (List ℕ)) (p : PartsRow)
        → RowsLinkTo d sources p → Partitioned (image_of p) }
    ensures linked_confined { (d : DescRow) (sources : List (List ℕ)) (p : PartsRow)
        (es : List Event)
        → RowsLinkTo d sources p
        → Confined (image_of p) (run (platform_of p) (boot_state p) es) }
    ensures linked_licensed { (d : DescRow) (sources : List (List ℕ)) (p : PartsRow)
        (es : List Event)
        → RowsLinkTo d sources p
        → AllLicensed (image_of p).entries (happenings_of (platform_of p) (boot_state p) es) }
    ensures sound_keeps { (p : PartsRow) (es : List Event) → Sound p
        → Keeps (image_of p) (run (platform_of p) (boot_state p) es) }
    ensures sound_licensed { (p : PartsRow) (es : List Event) → Sound p
        → AllLicensed (image_of p).entries (happenings_of (platform_of p) (boot_state p) es) }
{}

/// Whatever events come from the boot of any bytes that are an image. Of each: calls are clean; each access is
/// licensed; nothing is loaded, stored, waited for or woken through a capability of an object after its free; an
/// allocation hands out a fresh object; a trap that is told is that of the first check that fails; charges follow
/// what is told; what the thread that carries on holds reaches RAM, devices and native entries alone; a frame's error
/// handler is entered where a trap is told that enters it, and only once; keys and tokens are kept; whatever stands
/// comes of what stood, and loads attenuate (`safe`). What is told is what was done, what is done is told, and a step
/// of which a check fails does nothing but trap (`exact`). What changes of RAM, threads, devices and the heap's rows
/// changes for a reason that is listed (`integrity`), and globals, stacks, live objects and devices by those alone
/// who may (`homes`).
///
/// Of all of them: code stays, and globals, stacks, threads, live objects and devices while none acts who may change
/// them (`stay`); a capability without GL stands in a stack alone, of all granules (`locals`); no access goes through
/// a capability of an object after its free (`unused`); a chunk that was freed is handed out again only after a whole
/// sweep that began after its free (`swept`); and the live charges on each quota are at most its limit (`quotas`).
pub fn accepted_images_are_safe()
    ensures safe { (bytes : List ℕ) (p : PartsRow) (es : List Event) → IsImage bytes p
        → EachEvent (Upholds (platform_of p)) (platform_of p) (boot_state p) es }
    ensures exact { (bytes : List ℕ) (p : PartsRow) (es : List Event) → IsImage bytes p
        → EachEvent (TellsExactly (platform_of p)) (platform_of p) (boot_state p) es }
    ensures integrity { (bytes : List ℕ) (p : PartsRow) (es : List Event) → IsImage bytes p
        → EachEvent (Integrity (platform_of p)) (platform_of p) (boot_state p) es }
    ensures homes { (bytes : List ℕ) (p : PartsRow) (es : List Event) → IsImage bytes p
        → EachEvent (HomesKept (platform_of p)) (platform_of p) (boot_state p) es }
    ensures stay { (bytes : List ℕ) (p : PartsRow) (es : List Event) → IsImage bytes p
        → HomesStay (platform_of p) (boot_state p) es }
    ensures locals { (bytes : List ℕ) (p : PartsRow) (es : List Event) → IsImage bytes p
        → LocalsInStacks (image_of p) (run (platform_of p) (boot_state p) es) }
    ensures unused { (bytes : List ℕ) (p : PartsRow) → IsImage bytes p
        → UnusedAfterFree (platform_of p) (boot_state p) }
    ensures swept { (bytes : List ℕ) (p : PartsRow) → IsImage bytes p
        → SweptBeforeReuse (platform_of p) (boot_state p) }
    ensures quotas { (bytes : List ℕ) (p : PartsRow) (es : List Event) (q : ℕ) → IsImage bytes p
        → charges q (run (platform_of p) (boot_state p) es).objects ≤ (root (image_of p) q).limit }
{}

/// The premises are met, by what the rows and sources of two samples are linked to: the smallest
/// one's parts, and those of the board with two compartments, a library and two threads.
pub fn samples_are_accepted()
    ensures tiny { RowsLinkTo tiny_rows [] tiny × IsFaultless tiny }
    ensures board { (p : PartsRow) × RowsLinkTo board_rows board_sources p × IsFaultless p }
{
    samples_link();
}
