//! The word that a wait or a wake names.

ghost use Rattle.std.specs.Prelude.{◌+◌, ◌*◌, ◌≡◌, ◌≤◌, true, length};
ghost use Rattle.def_machine.specs.Image.{Image};
ghost use Rattle.def_machine.specs.State.{State};
ghost use Rattle.def_step.specs.Checks.{first_failed};
ghost use Rattle.def_step.specs.Routines.{lies_in_ram, word_checks};
ghost use Rattle.ct_services.specs.Answering.{IfPasses, IsWord};

use ct_cap::{Flags, Live, Perms, Trap};
use def_profile::traps::{BOUNDS_CODE, LOAD_CODE, MISALIGNED_LOAD, SEAL_CODE, TAG_CODE};

/// The register that names the word.
const WORD_REGISTER: u32 = 10;

/// Whether four bytes at an address lie in RAM of so many bytes.
fn lies_in_ram(ram: u32, size: u32, at: u32) -> bool
    ensures is { (i : Image) (s : State) → i.ram ≡ ram → 8 * length s.granules ≡ size
        → result ≡ lies_in_ram i s at 4 }
    ensures lies { result ≡ true → (ram ≤ at) × (at + 4 ≤ ram + size) }
{
    ram <= at && at as u64 + 4 <= ram as u64 + size as u64
}

/// The first check that fails of a capability as one by which a word of RAM is loaded.
#[tactic(auto, using(ct_perm::proofs::Tests::has_ld))]
pub(crate) fn word_trap(ram: u32, size: u32, c: Live) -> Option<Trap>
    ensures is { (i : Image) (s : State) → i.ram ≡ ram → 8 * length s.granules ≡ size
        → result ≡ first_failed (word_checks i s c) }
    ensures passes { IfPasses result (IsWord ram size c) }
{
    let at = c.address();
    if !c.cap.tag {
        return Some(Trap::capability(TAG_CODE, WORD_REGISTER));
    }
    if c.seal != 0 {
        return Some(Trap::capability(SEAL_CODE, WORD_REGISTER));
    }
    if !c.perms.contains(Perms::LD) {
        return Some(Trap::capability(LOAD_CODE, WORD_REGISTER));
    }
    if !c.covers(at, 4) {
        return Some(Trap::capability(BOUNDS_CODE, WORD_REGISTER));
    }
    if !lies_in_ram(ram, size, at) {
        return Some(Trap::capability(BOUNDS_CODE, WORD_REGISTER));
    }
    if at % 4 != 0 {
        return Some(Trap::plain(MISALIGNED_LOAD));
    }
    None
}
