//! Who may do what, as plain rows: owners, the report's entries with the gates of exports, deeds and
//! what an event did, devices, and totals.
//!
//! Nothing here computes but what a device's kind says: audit, sharing graph, licence and machine all
//! speak of these rows. The types that hold a list or a text are seen by contracts as the records and
//! lists of specs/.
#![tactic(auto)]

mod acts;
mod hardware;
mod rows;

pub use acts::{Act, Deed, End, Happened, Owned, Totals};
pub use hardware::{DEVICE_KINDS, Device, DeviceKind, Devices};
pub use rows::{Comp, Entries, Entry, Gate, Kind, Mode, NO_GATE, Owner};
