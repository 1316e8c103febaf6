//! The law of what a policy allows: where it holds of an image, what each line of its text says holds of every run of
//! the image. A function with an empty body whose contract is the law.

ghost use Rattle.std.specs.Prelude.{ℕ, ◌≡◌, List, [], Some, slice_get};
ghost use Rattle.def_boot.specs.Boot.{platform_of, boot_state};
ghost use Rattle.def_image.specs.Accepted.{IsFaultless};
ghost use Rattle.def_image.specs.Parts.{PartsRow};
ghost use Rattle.def_policy.specs.Denials.{AllDenied};
ghost use Rattle.def_policy.specs.Rules as rule;
ghost use Rattle.def_policy.specs.Rules.{Rule};
ghost use Rattle.def_policy.specs.Rulings.{Ruling};
ghost use Rattle.def_policy.specs.Texts.{ReadsAsPolicy};
ghost use Rattle.def_step.specs.Events.{happenings_of};
ghost use Rattle.def_step.specs.declared.Event.{Event};
ghost use Rattle.def_program.specs.AllowedLines.{IsHeldDevice, IsKeptLine};

/// Of parts without a fault, whatever their code is, and a text of rules that nothing denies. Each line's
/// rule holds of each run of events from boot, by what it is about:
///
/// - a device: each load and store, one of whose bytes is one of the device's, is by an import of it, of a
///   listed owner, which reaches the compartment that made the access;
/// - a shared object or a service: a tagged register of a thread that runs, whose authority is an import of
///   it, has it of a listed owner, which reaches the compartment that runs;
/// - an export for calls: each call of it is by an import of it, of a listed owner, which reaches the caller;
/// - interrupts: each span with interrupts off is an export's, of a listed owner, which reaches who runs;
/// - data: each call of the export enters its callee clean, so no capability comes along;
/// - quotas: after any number of events the live charges on all quotas, or on an owner's, sum to no more;
/// - two apart: what the compartment does, and what a register holds while it runs, is by no entry of the
///   owner.
///
/// And for a line on a device there is one device of the line's name.
pub fn policies_hold_over_runs()
    ensures lines { (p : PartsRow) (es : List Event) (text : List ℕ) (rulings : List Ruling)
        (k : ℕ) (rule : Rule)
        → IsFaultless p → (reads : ReadsAsPolicy p text rulings) → AllDenied p 1 rulings []
        → slice_get reads.rules k ≡ Some rule → IsKeptLine p rule es }
    ensures device { (p : PartsRow) (es : List Event) (text : List ℕ) (rulings : List Ruling)
        (k : ℕ) (name : List ℕ) (owners : List (List ℕ))
        → IsFaultless p → (reads : ReadsAsPolicy p text rulings) → AllDenied p 1 rulings []
        → slice_get reads.rules k ≡ Some (rule.Only (rule.Device name) owners)
        → IsHeldDevice p name owners (happenings_of (platform_of p) (boot_state p) es) }
{}
