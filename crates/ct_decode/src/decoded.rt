//! The words that were met last.

ghost use Rattle.std.specs.Prelude.{◌≡◌, ◌<◌, slice_index_or, true};
ghost use Rattle.def_step.specs.Operands.{operands_of};
ghost use Rattle.ct_decode.specs.declared.decoded.TheConstants.{SLOTS};
ghost use Rattle.ct_decode.specs.Reading.{reading_of, slot_at, AreRegisters, IsRead};

use crate::reading::{Reading, read};
use def_refusals::NoMemory;
use std::alloc::Global;
use std::marker::Model;

/// How many words are kept.
pub const SLOTS: usize = 1024;

/// The words that were met last, decoded, each at the slot of its address: the slots go round by the words of memory,
/// so that two addresses that lie a multiple of four times `SLOTS` bytes apart have one slot. What another word takes
/// the place of is kept beside the slot, so that two words that are met in turn are decoded once each.
///
/// Contracts see it as the slots in their order. What stands in a slot or beside it is always what its word says.
#[derive(Drop)]
pub struct Decoded {
    rows: Vec<Reading>,
    beside: Vec<Reading>,
}

impl Model for Decoded {
    ghost use Rattle.std.specs.Prelude.{List};
    ghost use Rattle.ct_decode.specs.declared.reading.Reading.{Reading};
    ghost use Rattle.ct_decode.specs.Reading.{AreRead};

    ghost Value = { List Reading };

    ghost view = { λ d. d.rows.items };

    ghost invariant = { λ d. AreRead d.rows.items × AreRead d.beside.items };
}

/// The slot of an address.
#[inline(always)]
fn slot_of(at: u32) -> usize
    ensures is { result ≡ slot_at at }
    ensures small { result < SLOTS }
{
    (at / 4) as usize % SLOTS
}

/// What a word says, taken from what is kept beside its slot where that is the same word.
fn reading_beside(kept: &Reading, word: u32) -> Reading
    requires { IsRead kept.now }
    ensures is { result ≡ reading_of word }
    ensures read { IsRead result }
{
    if kept.word == word { *kept } else { read(word) }
}

impl Decoded {
    /// No word has been met.
    ///
    /// `NoMemory` where the allocator has no room for the slots.
    pub fn new(alloc: Global) -> Result<Decoded, NoMemory> {
        let rows = vec![in alloc; read(0); SLOTS]?;
        let beside = vec![in alloc; read(0); SLOTS]?;
        Ok(Decoded { rows, beside })
    }

    /// What the word at an address says comes into its slot, and what stood there beside it.
    ///
    /// Each is written once, and no other slot: for speed alone, since a slot that holds another word is filled anew.
    /// The slot is found again here, so that who calls it needn't keep its number.
    #[inline(never)]
    fn fill(&mut self, at: u32, word: u32)
        ensures { slice_index_or self.new (slot_at at) (reading_of 0) ≡ reading_of word }
    {
        let slot = slot_of(at);
        let reading = reading_beside(&self.beside[slot], word);
        self.beside[slot] = self.rows[slot];
        self.rows[slot] = reading;
    }

    /// Whether the slot of an address holds what this word says.
    ///
    /// `false` says nothing: the slot is filled anew, which costs time alone.
    #[inline(always)]
    fn holds(&self, at: u32, word: u32) -> bool
        ensures { result ≡ true
            → slice_index_or self.now (slot_at at) (reading_of 0) ≡ reading_of word }
    {
        self.rows[slot_of(at)].word == word
    }

    /// After it the slot of an address holds what a word says.
    #[inline(always)]
    fn keep(&mut self, at: u32, word: u32)
        ensures { slice_index_or self.new (slot_at at) (reading_of 0) ≡ reading_of word }
    {
        if !self.holds(at, word) {
            self.fill(at, word);
        }
    }

    /// The reading that the slot of an address holds.
    #[inline(always)]
    fn held(&self, at: u32) -> &Reading
        ensures is { result.now ≡ slice_index_or self.now (slot_at at) (reading_of 0) }
        ensures registers { AreRegisters (operands_of result.now.instruction) }
    {
        &self.rows[slot_of(at)]
    }

    /// What the word at an address says; a word that is no instruction's reads as the breakpoint. Where the address's
    /// slot holds the same word already, or what is kept beside it is that word, nothing is decoded.
    #[inline(always)]
    pub fn reading(&mut self, at: u32, word: u32) -> &Reading
        ensures is { result.now ≡ reading_of word }
        ensures registers { AreRegisters (operands_of result.now.instruction) }
    {
        self.keep(at, word);
        self.held(at)
    }
}
