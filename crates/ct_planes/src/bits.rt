//! A plane of bits.

ghost use Rattle.std.specs.Prelude.{◌≡◌, ◌+◌, ◌/◌, ◌<◌, ◌≤◌, ◌^◌, Bool, false, List, length, replicate, slice_set, slice_index_or, IfOk, MatchOption};
ghost use Rattle.ct_planes.specs.Bits.{words_of, Clear, IsNextSet};
ghost use Rattle.ct_planes.specs.Fills.{filled};

use crate::words::{fill_in, is_set, next_in, put_in};
use def_refusals::NoMemory;
use std::alloc::Global;
use std::marker::Model;

/// A list of bits, 64 in a word.
#[derive(Drop)]
pub(crate) struct Bits {
    count: usize,
    words: Vec<u64>,
}

impl Model for Bits {
    ghost use Rattle.std.specs.Prelude.{Bool, List};
    ghost use Rattle.ct_planes.specs.Bits.{flags_of, Kept};

    ghost Value = { List Bool };

    ghost view = { λ b. flags_of b.count b.words.items };

    ghost invariant = { λ b. Kept b.count b.words.items };
}

impl Bits {
    /// So many bits, none of them set.
    pub(crate) fn new(alloc: Global, count: usize) -> Result<Bits, NoMemory>
        requires { count < 2 ^ 29 }
        ensures { IfOk result (λ bits. bits ≡ replicate count false) }
    {
        let words = vec![in alloc; 0u64; (count + 63) / 64]?;
        Ok(Bits { count, words })
    }

    /// The bits in words.
    pub(crate) fn words(&self) -> &[u64]
        ensures { result.now ≡ words_of self.now }
    {
        &self.words
    }

    /// Whether a bit is set.
    pub(crate) fn get(&self, i: usize) -> bool
        requires { i < length self.now }
        ensures { result ≡ slice_index_or self.now i false }
    {
        is_set(&self.words, i)
    }

    /// Sets a bit, or clears it.
    pub(crate) fn put(&mut self, i: usize, on: bool)
        requires { i < length self.old }
        ensures { self.new ≡ slice_set self.old i on }
    {
        put_in(&mut self.words, i, on);
    }

    /// Sets the bits from one number to another, or clears them.
    pub(crate) fn fill(&mut self, from: usize, to: usize, on: bool)
        requires order { from ≤ to }
        requires inside { to ≤ length self.old }
        ensures { self.new ≡ filled from to on self.old }
    {
        fill_in(&mut self.words, from, to, on);
    }

    /// The least bit that is set, at or after a number and below another; `None` exactly where there
    /// is none.
    pub(crate) fn next(&self, from: usize, to: usize) -> Option<usize>
        requires { to < 2 ^ 32 }
        ensures { MatchOption result (Clear self.now from to)
            (λ at. IsNextSet self.now from at × (at < to)) }
    {
        next_in(&self.words, from, to)
    }
}
