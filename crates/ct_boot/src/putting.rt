//! One granule, and bytes from an address on.

ghost use Rattle.std.specs.Prelude.{◌≡◌, ◌<◌, ◌+◌, ◌*◌, ◌^◌, length};
ghost use Rattle.def_boot.specs.Contents as spec;
ghost use Rattle.def_boot.specs.Contents.{byte_or_zero};
ghost use Rattle.def_image.specs.Sound.{Sound};
ghost use Rattle.def_boot.specs.Booting.{Booting, IsFrom, BootPuts, PutsBytes, Stage};

use ct_cap::{Live, shrink};
use ct_image_parts::Parts;
use ct_mem::Memory;
use def_profile::layout::GRANULE;

/// The granule at an address gets what boot makes for it.
pub(crate) fn put<M: Memory>(parts: &Parts, mem: &mut M, at: u32, cap: Live)
    requires booting { Booting parts.now (M.granules mem.old) }
    requires puts { BootPuts parts.now at cap }
    ensures { Stage parts.now (M.granules mem.old) (M.granules mem.new) (λ x. x ≡ at) }
{
    mem.store_cap(at - parts.ram, shrink(cap));
}

/// The byte at an offset, 0 past the end.
fn byte(bytes: &[u8], at: usize) -> u64
    ensures value { result ≡ byte_or_zero bytes.now at }
    ensures small { result < 256 }
{
    match bytes.get(at) {
        Some(byte) => *byte as u64,
        None => 0,
    }
}

/// Four bytes from an offset on, the first lowest.
fn half_word(bytes: &[u8], at: usize) -> u64
    requires { at < 2 ^ 40 }
    ensures value { result
        ≡ byte_or_zero bytes.now at + byte_or_zero bytes.now (at + 1) * 2 ^ 8
        + byte_or_zero bytes.now (at + 2) * 2 ^ 16 + byte_or_zero bytes.now (at + 3) * 2 ^ 24 }
    ensures small { result < 2 ^ 32 }
{
    let low = byte(bytes, at) + byte(bytes, at + 1) * (1 << 8);
    low + byte(bytes, at + 2) * (1 << 16) + byte(bytes, at + 3) * (1 << 24)
}

/// Eight bytes from an offset on, the first lowest.
fn word(bytes: &[u8], at: usize) -> u64
    requires { at < 2 ^ 32 }
    ensures { result ≡ spec.word_from_bytes bytes.now at }
{
    half_word(bytes, at) + half_word(bytes, at + 4) * (1 << 32)
}

/// The word of bytes at an index.
fn put_word<M: Memory>(parts: &Parts, mem: &mut M, base: u32, bytes: &[u8], index: usize)
    requires sound { Sound parts.now }
    requires booting { Booting parts.now (M.granules mem.old) }
    requires inside { 8 * index < length bytes.now }
    requires puts { PutsBytes parts.now base bytes.now }
    ensures { Stage parts.now (M.granules mem.old) (M.granules mem.new)
        (λ x. x ≡ base + 8 * index) }
{
    let offset = GRANULE * index as u32;
    put(
        parts,
        mem,
        base + offset,
        Live::plain(word(bytes, offset as usize)),
    );
}

/// Bytes from an address on, eight a granule, the last filled up with zeros.
pub(crate) fn put_bytes<M: Memory>(parts: &Parts, mem: &mut M, base: u32, bytes: &[u8])
    requires sound { Sound parts.now }
    requires booting { Booting parts.now (M.granules mem.old) }
    requires puts { PutsBytes parts.now base bytes.now }
    ensures { Stage parts.now (M.granules mem.old) (M.granules mem.new)
        (IsFrom base (base + length bytes.now)) }
{
    for index in 0..bytes.len().div_ceil(GRANULE as usize) {
        put_word(parts, mem, base, bytes, index);
    }
}
