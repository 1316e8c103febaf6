//! The firmware that is generated from a number, for demonstration: a chain of compartments, each of
//! which takes and frees memory, calls the next one and writes its index to a serial port
//! (docs/use/run.md).
//!
//! The definitions stand in specs/: Numbers has what is chosen by the number, Description the
//! description as a JSON value, Sources the text of each compartment.
#![tactic(auto)]

/// The fewest compartments.
pub const FEWEST: u32 = 2;
/// How many numbers of compartments there are, from the fewest on.
pub const COUNTS: u32 = 63;

/// What a number of the row of numbers is multiplied by for the next one.
pub const MULTIPLIER: u32 = 1_664_525;
/// What is added then.
pub const INCREMENT: u32 = 1_013_904_223;

/// The first address of RAM.
pub const RAM_BASE: u32 = 0x8000_0000;
/// The size of RAM in bytes.
pub const RAM_SIZE: u32 = 0x0010_0000;
/// Steps between two ticks.
pub const QUANTUM: u32 = 50;
/// The address of the serial port.
pub const PORT_BASE: u32 = 0x1000_0000;

/// Bytes that globals are a multiple of.
pub const GLOBALS_UNIT: u32 = 16;
/// The most of these in globals.
pub const MOST_GLOBALS_UNITS: u32 = 64;
/// The least number by which a compartment passes data alone.
pub const LEAST_DATA: u32 = 0x8000_0000;
/// The limit of a compartment's quota in bytes.
pub const QUOTA: u32 = 4096;
/// The arguments that an export takes.
pub const ARGUMENTS: u32 = 1;
/// The stack that an export needs, in bytes.
pub const EXPORT_STACK: u32 = 64;

/// The priority of the threads.
pub const PRIORITY: u32 = 1;
/// The stack of a thread in bytes.
pub const THREAD_STACK: u32 = 8192;

/// Bytes that the size of what a compartment allocates is a multiple of.
pub const OBJECT_UNIT: u32 = 8;
/// The most of these in it.
pub const MOST_OBJECT_UNITS: u32 = 32;
/// The size goes by a number without the rest by this.
pub const OBJECT_SHIFT: u32 = 256;
