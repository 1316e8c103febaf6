//! Entries that are linked by a key: those of one key are found without the others.

ghost use Rattle.std.specs.Prelude.{◌≡◌, ◌<◌, ◌%◌, ◌^◌, IfOk, length, slice_index_or};
ghost use Rattle.ct_policy.specs.Links.{AreLinked};

use std::alloc::{AllocError, Global};
use std::marker::Model;

/// By what is left of its key by the count of `firsts`, the place of the first entry, and of each entry
/// that of the next one of which the same is left; the count of the entries where there is none.
#[derive(Drop)]
pub(crate) struct Links {
    firsts: Vec<u32>,
    nexts: Vec<u32>,
}

impl Model for Links {
    ghost use Rattle.ct_policy.specs.Links.{LinksRow};

    ghost Value = { LinksRow };

    ghost view = { λ l. record { firsts = l.firsts.items; nexts = l.nexts.items } };
}

/// Links the entries of these keys.
#[tactic(auto, using(crate::proofs::Linked::starts_linked, crate::proofs::Linked::fits))]
pub(crate) fn links_of(alloc: Global, keys: &[u64], size: usize) -> Result<Links, AllocError>
    requires few { length keys.now < 2 ^ 32 }
    requires some { 0 < size }
    ensures { IfOk result (λ l. AreLinked keys.now size 0 l) }
{
    let count = keys.len();
    let mut firsts = vec![in alloc; count as u32; size]?;
    let mut nexts = vec![in alloc; count as u32; count]?;
    let mut left = count;
    while left > 0 {
        left -= 1;
        let slot = (keys[left] % size as u64) as usize;
        nexts[left] = firsts[slot];
        firsts[slot] = left as u32;
    }
    Ok(Links { firsts, nexts })
}

impl Links {
    /// The place of the first entry that falls where this key does.
    pub(crate) fn first(&self, key: u64) -> usize
        requires { 0 < length self.now.firsts }
        ensures { result
            ≡ slice_index_or self.now.firsts (key % length self.now.firsts) 0 }
    {
        self.firsts[(key % self.firsts.len() as u64) as usize] as usize
    }

    /// The place of the next entry that falls where the one at this place does.
    pub(crate) fn after(&self, place: usize) -> usize
        requires { place < length self.now.nexts }
        ensures { result ≡ slice_index_or self.now.nexts place 0 }
    {
        self.nexts[place] as usize
    }
}
