//! The addresses at which a fetch need only ask for the tag and for a multiple of 4.

ghost use Rattle.std.specs.Prelude.{◌≡◌, ◌+◌, ◌*◌, ◌^◌, ◌&&◌, max, min, nat_lt, length};
ghost use Rattle.def_words.specs.Authority.{cap_base, cap_top};
ghost use Rattle.def_words.specs.Permissions.{has, execute};
ghost use Rattle.def_words.specs.Seals.{is_unsealed};
ghost use Rattle.ct_threads.specs.Steps.{first_after_native};
ghost use Rattle.ct_threads.specs.Windows.{empty_window, window_holds, HoldsEach, IsWindow};

use crate::fetching::FIRST_AFTER_NATIVE;
use ct_cap::{Flags, Live, Perms};
use ct_mem::Memory;

/// Addresses of words, from one to a last one, none where `last` is below `from`. It suits a program counter capability
/// that is untagged, or that is unsealed and may be executed and whose bounds hold a word at each of these. It is a
/// window of one in RAM where it suits it, and each of these words lies in RAM past the native routines.
#[derive(Clone, Copy)]
pub struct Window {
    pub from: u32,
    pub last: u32,
}

impl Window {
    /// No address.
    #[inline(always)]
    pub fn empty() -> Window
        ensures { result ≡ empty_window }
    {
        Window { from: 1, last: 0 }
    }

    /// Whether an address is one of these.
    #[inline(always)]
    pub fn holds(self, at: u32) -> bool
        ensures { result ≡ window_holds self at }
    {
        self.from <= at && at <= self.last
    }
}

/// Whether a capability is unsealed and may be executed, and its bounds end at an address.
#[tactic(auto, using(ct_perm::proofs::Tests::has_ex))]
fn may_run(pcc: &Live) -> bool
    ensures { result
        ≡ (is_unsealed pcc.now && (has pcc.now execute && nat_lt (cap_top pcc.now) (2 ^ 32))) }
{
    pcc.seal == 0 && pcc.perms.contains(Perms::EX) && pcc.bounds.top <= u32::MAX as u64
}

/// Where the words begin that may lie in a capability's bounds and in RAM, past the native routines.
fn words_begin(pcc: &Live, ram: u32) -> u64
    ensures { result ≡ max (cap_base pcc.now) (max ram first_after_native) }
{
    pcc.bounds.base.max(ram.max(FIRST_AFTER_NATIVE) as u64)
}

/// Where they end.
fn words_end<M: Memory>(pcc: &Live, mem: &M, ram: u32) -> u64
    ensures { result ≡ min (cap_top pcc.now) (ram + 8 * length (M.granules mem.now)) }
{
    pcc.bounds.top.min(ram as u64 + mem.size() as u64)
}

/// The window of all words in a capability's bounds that lie in RAM, past the native routines, where it is unsealed and
/// may be executed and its bounds end at an address; else none.
pub fn window_of<M: Memory>(pcc: &Live, mem: &M, ram: u32) -> Window
    ensures is { IsWindow result pcc.now ram (8 * length (M.granules mem.now)) }
    ensures whole { HoldsEach result pcc.now ram (8 * length (M.granules mem.now)) }
{
    if !may_run(pcc) {
        return Window::empty();
    }
    let from = words_begin(pcc, ram);
    let end = words_end(pcc, mem, ram);
    if end.saturating_sub(from) < 4 {
        return Window::empty();
    }
    Window {
        from: from as u32,
        last: (end - 4) as u32,
    }
}
