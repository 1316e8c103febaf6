//! The rows of import and export tables as 16 bytes, both ways.
//!
//! A row has one spelling (def_image's Spelling), and 16 bytes are the spelling of one row or of none.
#![tactic(auto)]

mod export;
mod import;

pub use def_image::{ExportRow, ImportRow, SlotKind};
pub use export::{read_export, write_export};
pub use import::{read_import, write_import};
