//! Numbers, names and runs of bytes at the front of bytes. Each reader gives a field and the bytes
//! after it, or Unspelled where the bytes end before it does.

ghost use Rattle.std.specs.Prelude.{◌≡◌, length, IfOk};
ghost use Rattle.def_image.specs.declared.format.TheConstants.{NAME, ROW};
ghost use Rattle.ct_image_fields.specs.Given.{Gives};
ghost use Rattle.ct_image_fields.specs.Reading as spec;

use crate::fault::Cut;
use std::alloc::Global;

/// A number.
pub(crate) fn number_at(bytes: &[u8]) -> Result<(u32, &[u8]), Cut>
    ensures { Gives (λ x. (x.0, x.1.now)) result (spec.number_at bytes.now) }
{
    if bytes.len() < 4 {
        return Err(Cut::Unspelled);
    }
    let (front, rest) = bytes.split_at(4);
    let number = u32::from_le_bytes([front[0], front[1], front[2], front[3]]);
    Ok((number, rest))
}

/// A run of this many bytes, as it lies.
pub(crate) fn run_at(count: usize, bytes: &[u8]) -> Result<(&[u8], &[u8]), Cut>
    ensures fields { Gives (λ x. (x.0.now, x.1.now)) result (spec.field_at count bytes.now) }
    ensures size { IfOk result (λ x. length x.0.now ≡ count) }
{
    if bytes.len() < count {
        return Err(Cut::Unspelled);
    }
    Ok(bytes.split_at(count))
}

/// A run of this many bytes, copied.
pub(crate) fn bytes_at(alloc: Global, count: u32, bytes: &[u8]) -> Result<(Vec<u8>, &[u8]), Cut>
    ensures { Gives (λ x. (x.0.items, x.1.now)) result (spec.field_at count bytes.now) }
{
    let (front, rest) = run_at(count as usize, bytes)?;
    Ok((Vec::from_slice(alloc, front)?, rest))
}

/// The 32 bytes of a name.
pub(crate) fn name_at(bytes: &[u8]) -> Result<([u8; 32], &[u8]), Cut>
    ensures { Gives (λ x. (x.0, x.1.now)) result (spec.field_at NAME bytes.now) }
{
    let (front, rest) = run_at(32, bytes)?;
    let mut name = [0; 32];
    name.copy_from_slice(front);
    Ok((name, rest))
}

/// The 16 bytes of a row.
pub(crate) fn row_at(bytes: &[u8]) -> Result<([u8; 16], &[u8]), Cut>
    ensures { Gives (λ x. (x.0, x.1.now)) result (spec.field_at ROW bytes.now) }
{
    let (front, rest) = run_at(16, bytes)?;
    let mut row = [0; 16];
    row.copy_from_slice(front);
    Ok((row, rest))
}
