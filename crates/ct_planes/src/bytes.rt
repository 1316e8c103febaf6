//! A plane of bytes, seen as words of eight.

ghost use Rattle.std.specs.Prelude.{◌≡◌, ◌+◌, ◌/◌, ◌%◌, ◌*◌, ◌<◌, ◌≤◌, ◌^◌, List, ℕ, length, map, replicate, slice_set, slice_index_or, IfOk};
ghost use Rattle.std.specs.List.{range_with_len};
ghost use Rattle.std.specs.Simd.Lanes.{put_chunk};
ghost use Rattle.def_memory.specs.Accesses.{IsAccess, byte_of, part_of, with_part};
ghost use Rattle.ct_planes.specs.Bytes.{HoldsWords, held_bytes, part_at, part_written};
ghost use Rattle.ct_planes.specs.Fills.{filled};

use def_refusals::NoMemory;
use std::alloc::Global;
use std::marker::Model;

/// Words of eight bytes, the lowest byte first.
#[derive(Drop)]
pub(crate) struct Bytes {
    bytes: Vec<u8>,
}

impl Model for Bytes {
    ghost use Rattle.std.specs.Prelude.{ℕ, List};
    ghost use Rattle.ct_planes.specs.Bytes.{words_in, KeptBytes};

    ghost Value = { List ℕ };

    ghost view = { λ b. words_in b.bytes.items };

    ghost invariant = { λ b. KeptBytes b.bytes.items };
}

/// One, two or four bytes as a number.
fn load_in(bytes: &[u8], at: usize, width: u32) -> u32
    requires { IsAccess (length bytes.now) at width }
    ensures { (words : List ℕ) → HoldsWords words bytes.now → result ≡ part_at words at width }
{
    if width == 1 {
        return bytes[at] as u32;
    }
    if width == 2 {
        return u16::from_le_bytes([bytes[at], bytes[at + 1]]) as u32;
    }
    u32::from_le_bytes([bytes[at], bytes[at + 1], bytes[at + 2], bytes[at + 3]])
}

/// Writes bytes from an offset on.
#[inline(always)]
fn put_bytes(bytes: &mut [u8], at: usize, new: &[u8])
    requires { at + length new.now ≤ length bytes.old }
    ensures { bytes.new ≡ put_chunk at bytes.old new.now }
{
    bytes[at..at + new.len()].copy_from_slice(new);
}

/// Writes the lowest one, two or four bytes of a number.
fn store_in(bytes: &mut [u8], at: usize, width: u32, value: u32)
    requires { IsAccess (length bytes.old) at width }
    ensures size { length bytes.new ≡ length bytes.old }
    ensures holds { (words : List ℕ)
        → HoldsWords words bytes.old → HoldsWords (part_written words at width value) bytes.new }
{
    let low = value.to_le_bytes();
    if width == 1 {
        return put_bytes(bytes, at, &low[..1]);
    }
    if width == 2 {
        return put_bytes(bytes, at, &low[..2]);
    }
    put_bytes(bytes, at, &low);
}

/// Eight bytes as a number.
fn word_in(bytes: &[u8], at: usize) -> u64
    requires { at + 8 ≤ length bytes.now }
    ensures { (words : List ℕ)
        → HoldsWords words bytes.now → at % 8 ≡ 0 → result ≡ slice_index_or words (at / 8) 0 }
{
    u64::from_le_bytes([
        bytes[at],
        bytes[at + 1],
        bytes[at + 2],
        bytes[at + 3],
        bytes[at + 4],
        bytes[at + 5],
        bytes[at + 6],
        bytes[at + 7],
    ])
}

/// Writes eight bytes.
fn put_word_in(bytes: &mut [u8], at: usize, word: u64)
    requires { at + 8 ≤ length bytes.old }
    ensures size { length bytes.new ≡ length bytes.old }
    ensures holds { (words : List ℕ)
        → HoldsWords words bytes.old → at % 8 ≡ 0
        → HoldsWords (slice_set words (at / 8) word) bytes.new }
{
    put_bytes(bytes, at, &word.to_le_bytes());
}

/// Clears the words from one number to another.
fn zero_in(bytes: &mut [u8], from: usize, to: usize)
    requires order { from ≤ to }
    requires inside { 8 * to ≤ length bytes.old }
    ensures size { length bytes.new ≡ length bytes.old }
    ensures holds { (words : List ℕ)
        → HoldsWords words bytes.old → HoldsWords (filled from to 0 words) bytes.new }
{
    bytes[8 * from..8 * to].fill(0);
}

impl Bytes {
    /// So many words, each 0.
    pub(crate) fn new(alloc: Global, count: usize) -> Result<Bytes, NoMemory>
        requires { count < 2 ^ 29 }
        ensures { IfOk result (λ words. words ≡ replicate count 0) }
    {
        let bytes = vec![in alloc; 0u8; 8 * count]?;
        Ok(Bytes { bytes })
    }

    /// How many bytes there are.
    pub(crate) fn size(&self) -> u32
        ensures { result ≡ 8 * length self.now }
    {
        self.bytes.len() as u32
    }

    /// The bytes of all words, in order.
    pub(crate) fn bytes(&self) -> &[u8]
        ensures { result.now ≡ held_bytes self.now }
    {
        &self.bytes
    }

    /// One, two or four bytes as a number.
    pub(crate) fn load(&self, at: usize, width: u32) -> u32
        requires { IsAccess (8 * length self.now) at width }
        ensures { result ≡ part_at self.now at width }
    {
        load_in(&self.bytes, at, width)
    }

    /// Writes the lowest one, two or four bytes of a number.
    pub(crate) fn store(&mut self, at: usize, width: u32, value: u32)
        requires { IsAccess (8 * length self.old) at width }
        ensures { self.new ≡ part_written self.old at width value }
    {
        store_in(&mut self.bytes, at, width, value);
    }

    /// A word.
    pub(crate) fn word(&self, i: usize) -> u64
        requires { i < length self.now }
        ensures { result ≡ slice_index_or self.now i 0 }
    {
        word_in(&self.bytes, 8 * i)
    }

    /// Writes a word.
    pub(crate) fn put_word(&mut self, i: usize, word: u64)
        requires { i < length self.old }
        ensures { self.new ≡ slice_set self.old i word }
    {
        put_word_in(&mut self.bytes, 8 * i, word);
    }

    /// Clears the words from one number to another.
    pub(crate) fn zero(&mut self, from: usize, to: usize)
        requires order { from ≤ to }
        requires inside { to ≤ length self.old }
        ensures { self.new ≡ filled from to 0 self.old }
    {
        zero_in(&mut self.bytes, from, to);
    }
}
