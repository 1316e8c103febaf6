//! Rows of import tables.

ghost use Rattle.std.specs.Prelude.{◌≡◌, MatchOption};
ghost use Rattle.def_image.specs.Spelling as spec;
ghost use Rattle.def_image.specs.declared.ImportRow.{ImportRow as RowOf};
ghost use Rattle.def_image.specs.declared.SlotKind.{SlotKind as KindOf};

use def_image::{ImportRow, SlotKind};

/// The byte of a kind.
fn kind_byte(kind: SlotKind) -> u8
    ensures { result ≡ spec.kind_byte kind }
{
    match kind {
        SlotKind::Service => 1,
        SlotKind::Device => 2,
        SlotKind::Shared => 3,
        SlotKind::Sealed => 4,
        SlotKind::Call => 5,
        SlotKind::Library => 6,
        SlotKind::Quota => 7,
        SlotKind::Key => 8,
    }
}

/// The kind of a byte. None exactly where no kind has it.
fn kind_of(byte: u8) -> Option<SlotKind>
    ensures { MatchOption result
        ((kind : KindOf) → spec.kind_byte kind ≡ byte → ⊥)
        (λ kind. spec.kind_byte kind ≡ byte) }
{
    match byte {
        1 => Some(SlotKind::Service),
        2 => Some(SlotKind::Device),
        3 => Some(SlotKind::Shared),
        4 => Some(SlotKind::Sealed),
        5 => Some(SlotKind::Call),
        6 => Some(SlotKind::Library),
        7 => Some(SlotKind::Quota),
        8 => Some(SlotKind::Key),
        _ => None,
    }
}

/// The 16 bytes of a row.
pub fn write_import(row: &ImportRow) -> [u8; 16]
    ensures { result ≡ spec.import_field row.now }
{
    let [a, b, c, d] = row.first.to_le_bytes();
    let [e, f, g, h] = row.second.to_le_bytes();
    let kind = kind_byte(row.kind);
    [kind, row.rights, 0, 0, a, b, c, d, e, f, g, h, 0, 0, 0, 0]
}

/// The row that 16 bytes are. None exactly where no row is written so: where the first byte is no
/// kind's, or one that is zero in each row isn't.
pub fn read_import(bytes: &[u8; 16]) -> Option<ImportRow>
    ensures { MatchOption result
        ((row : RowOf) → spec.import_field row ≡ bytes.now → ⊥)
        (λ row. spec.import_field row ≡ bytes.now) }
{
    let [kind, rights, 0, 0, a, b, c, d, e, f, g, h, 0, 0, 0, 0] = *bytes else {
        return None;
    };
    match kind_of(kind) {
        Some(kind) => Some(ImportRow {
            kind,
            rights,
            first: u32::from_le_bytes([a, b, c, d]),
            second: u32::from_le_bytes([e, f, g, h]),
        }),
        None => None,
    }
}
