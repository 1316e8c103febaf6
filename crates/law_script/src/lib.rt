//! What a text says as a script is determined: one list of bytes with their steps at most, and where it
//! says none there is one fault at most; and each byte of a script comes once. Lemmas on spelled lines
//! stand in proofs/.
#![tactic(auto)]

ghost use Rattle.std.specs.Prelude.{◌≡◌, ◌+◌, ◌<◌, ◌≤◌, ℕ, List, All, length};
ghost use Rattle.ct_entry.specs.Listed.{DeviceRow};
ghost use Rattle.def_script.specs.declared.Given.{Given};
ghost use Rattle.def_script.specs.Script.{Due, ReadsAsScript, IsScriptFault, given_at};
ghost use Rattle.def_script.specs.Coming.{left_from};

/// A text has one reading or one fault, and never both.
pub fn script_is_determined()
    ensures one_reading { (devices : List DeviceRow) (text : List ℕ) (first second : List Due)
        → ReadsAsScript devices text first → ReadsAsScript devices text second
        → first ≡ second }
    ensures no_reading { (devices : List DeviceRow) (text : List ℕ) (dues : List Due)
        (number line : ℕ)
        → IsScriptFault devices text number line → ReadsAsScript devices text dues
        → ⊥ }
    ensures one_fault { (devices : List DeviceRow) (text : List ℕ) (number line other place : ℕ)
        → IsScriptFault devices text number line → IsScriptFault devices text other place
        → (number ≡ other) × (line ≡ place) }
{}

/// The bytes that come before a step, and those that come later, are those that come from it on; there are
/// no more of them than the script has; and where each byte of the script goes to a device, these do.
pub fn bytes_come_once()
    ensures once { (script : List Due) (step : ℕ)
        → length (given_at script step) + left_from script (step + 1) ≡ left_from script step }
    ensures within { (script : List Due) (step : ℕ) → left_from script step ≤ length script }
    ensures each { (script : List Due) (step devices : ℕ)
        → All (λ (d : Due). d.given.device < devices) script
        → All (λ (g : Given). g.device < devices) (given_at script step) }
{}

/// A text that is a script says no more bytes than it has itself, and each goes to one of the devices.
pub fn scripts_fit()
    ensures few { (devices : List DeviceRow) (text : List ℕ) (script : List Due)
        → ReadsAsScript devices text script → length script ≤ length text }
    ensures named { (devices : List DeviceRow) (text : List ℕ) (script : List Due)
        → ReadsAsScript devices text script
        → All (λ (d : Due). d.given.device < length devices) script }
{}
