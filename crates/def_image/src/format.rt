//! How many bytes the parts of an image have.

/// A number.
pub const NUMBER: u32 = 4;
/// A name with the zeros that pad it.
pub const NAME: u32 = 32;
/// A row of an import or export table.
pub const ROW: u32 = 16;
/// A row with its name.
pub const ENTRY: u32 = ROW + NAME;
/// What stands before the devices, in version 1: magic, version, six counts, quantum, RAM's base and
/// size, the trusted and the heap base, and the firmware's name.
pub const HEADER: u32 = 13 * NUMBER + NAME;
/// A device: name, kind, base.
pub const DEVICE: u32 = NAME + 2 * NUMBER;
/// A shared object: name, base, length.
pub const SHARED: u32 = NAME + 2 * NUMBER;
/// A sealed object before its bytes: name, base, length, type, number of bytes.
pub const SEALED_HEAD: u32 = NAME + 4 * NUMBER;
/// A compartment before its slots: name, and nine numbers.
pub const COMPARTMENT_HEAD: u32 = NAME + 9 * NUMBER;
/// A library before its slots: name, and five numbers.
pub const LIBRARY_HEAD: u32 = NAME + 5 * NUMBER;
/// A thread: name, and six numbers.
pub const THREAD: u32 = NAME + 6 * NUMBER;
