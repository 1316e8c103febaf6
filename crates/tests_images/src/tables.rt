//! Rows of the smallest sample, as they stand in its image.

use crate::seen::is;
use ct_entry::Mode;
use ct_tables::{
    ExportRow, ImportRow, SlotKind, read_export, read_import, write_export, write_import,
};

const UART: [u8; 16] = [2, 49, 0, 0, 0, 0, 0, 0, 0, 0, 0, 0, 0, 0, 0, 0];

const MAIN: [u8; 16] = [0, 0, 0, 0, 0, 0, 0, 0, 6, 3, 1, 0, 5, 0, 0, 0];

/// Bytes of which one is another make no row of an import table.
const NO_IMPORT: [(usize, u8); 6] = [(2, 1), (3, 1), (12, 1), (15, 1), (0, 0), (0, 9)];

const NO_EXPORT: [(usize, u8); 5] = [(9, 0), (9, 4), (10, 0), (10, 3), (11, 1)];

/// These bytes, one of them another.
fn with(bytes: &[u8; 16], row: &(usize, u8)) -> [u8; 16] {
    let (index, byte) = *row;
    let mut bytes = *bytes;
    bytes[index % 16] = byte;
    bytes
}

#[test]
fn import_row(rt: HostRuntime) {
    let row = ImportRow {
        kind: SlotKind::Device,
        rights: 49,
        first: 0,
        second: 0,
    };
    is(&rt, 0, write_import(&row) == UART);
    is(&rt, 1, read_import(&UART) == Some(row));
    for (place, row) in NO_IMPORT.iter().enumerate() {
        is(&rt, place, read_import(&with(&UART, row)) == None);
    }
}

#[test]
fn export_row(rt: HostRuntime) {
    let row = ExportRow {
        offset: 0,
        stack: 0,
        args: 6,
        posture: Mode::Enabled,
        capabilities: true,
        entry: 5,
    };
    is(&rt, 0, write_export(&row) == MAIN);
    is(&rt, 1, read_export(&MAIN) == Some(row));
    for (place, row) in NO_EXPORT.iter().enumerate() {
        is(&rt, place, read_export(&with(&MAIN, row)) == None);
    }
}
