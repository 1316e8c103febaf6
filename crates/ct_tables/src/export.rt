//! Rows of export tables.

ghost use Rattle.std.specs.Prelude.{◌≡◌, MatchOption, Bool};
ghost use Rattle.ct_entry.specs.declared.rows.Mode.{Mode as ModeOf};
ghost use Rattle.def_image.specs.Spelling as spec;
ghost use Rattle.def_image.specs.declared.ExportRow.{ExportRow as RowOf};

use ct_entry::Mode;
use def_image::ExportRow;

/// The byte of a posture.
fn posture_byte(posture: Mode) -> u8
    ensures { result ≡ spec.posture_byte posture }
{
    match posture {
        Mode::Inherit => 1,
        Mode::Disabled => 2,
        Mode::Enabled => 3,
    }
}

/// The posture of a byte. None exactly where no posture has it.
fn posture_of(byte: u8) -> Option<Mode>
    ensures { MatchOption result
        ((posture : ModeOf) → spec.posture_byte posture ≡ byte → ⊥)
        (λ posture. spec.posture_byte posture ≡ byte) }
{
    match byte {
        1 => Some(Mode::Inherit),
        2 => Some(Mode::Disabled),
        3 => Some(Mode::Enabled),
        _ => None,
    }
}

/// The byte that says whether capabilities are passed.
fn passes_byte(capabilities: bool) -> u8
    ensures { result ≡ spec.passes_byte capabilities }
{
    if capabilities { 1 } else { 2 }
}

/// Whether capabilities are passed, by that byte. None exactly where it says neither.
fn passes_of(byte: u8) -> Option<bool>
    ensures { MatchOption result
        ((capabilities : Bool) → spec.passes_byte capabilities ≡ byte → ⊥)
        (λ capabilities. spec.passes_byte capabilities ≡ byte) }
{
    match byte {
        1 => Some(true),
        2 => Some(false),
        _ => None,
    }
}

/// The 16 bytes of a row.
pub fn write_export(row: &ExportRow) -> [u8; 16]
    ensures { result ≡ spec.export_field row.now }
{
    let [a, b, c, d] = row.offset.to_le_bytes();
    let [e, f, g, h] = row.stack.to_le_bytes();
    let [i, j, k, l] = row.entry.to_le_bytes();
    let posture = posture_byte(row.posture);
    let passes = passes_byte(row.capabilities);
    [
        a, b, c, d, e, f, g, h, row.args, posture, passes, 0, i, j, k, l,
    ]
}

/// The row that 16 bytes are. None exactly where no row is written so: where the tenth byte is no
/// posture's, the eleventh says neither of passing, or the twelfth isn't zero.
pub fn read_export(bytes: &[u8; 16]) -> Option<ExportRow>
    ensures { MatchOption result
        ((row : RowOf) → spec.export_field row ≡ bytes.now → ⊥)
        (λ row. spec.export_field row ≡ bytes.now) }
{
    let [a, b, c, d, e, f, g, h, args, posture, passes, 0, i, j, k, l] = *bytes else {
        return None;
    };
    match (posture_of(posture), passes_of(passes)) {
        (Some(posture), Some(capabilities)) => Some(ExportRow {
            offset: u32::from_le_bytes([a, b, c, d]),
            stack: u32::from_le_bytes([e, f, g, h]),
            args,
            posture,
            capabilities,
            entry: u32::from_le_bytes([i, j, k, l]),
        }),
        _ => None,
    }
}
