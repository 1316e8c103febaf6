//! How firmware is laid out in RAM, in bytes.

/// A granule: what one tag is of.
pub const GRANULE: u32 = 8;
/// Regions begin at multiples of this, and are at least as long.
pub const REGION_UNIT: u32 = 16;
/// A slot of an import table.
pub const SLOT_SIZE: u32 = 8;
/// The head of an export table: the compartment's code and globals.
pub const TABLE_HEAD: u32 = 16;
/// A row of an export table.
pub const TABLE_ROW: u32 = 16;
/// What stands in the trusted region before the threads' areas: the return sentry.
pub const TRUSTED_HEAD: u32 = 16;
/// The part of a thread's area that keeps its program counter capability and registers.
pub const SAVED_SIZE: u32 = 128;
/// What stands in a thread's area before its frames.
pub const AREA_HEAD: u32 = 160;
/// A frame in a thread's area.
pub const FRAME_SIZE: u32 = 64;
/// What a heap object's chunk has before the object, and an allocation is charged beside its length.
pub const CHUNK_HEAD: u32 = 8;
/// A device's registers.
pub const DEVICE_SIZE: u32 = 16;
