//! Limits of firmware, files and runs. What has two limits has one for each version of the format.

/// Bytes of a file.
pub const MOST_FILE: u32 = 0x0100_0000;
/// Steps of a run, and events of each kind.
pub const MOST_STEPS: u32 = 4_000_000_000;

/// Bytes of RAM, at least.
pub const LEAST_RAM: u32 = 256;
/// Bytes of RAM, at most, in version 1.
pub const MOST_RAM: u32 = 0x0080_0000;
/// The same in version 2.
pub const MOST_RAM_2: u32 = 0x0400_0000;
/// The greatest address at which RAM may end.
pub const RAM_END: u32 = 0xFFFF_FFF0;

/// Devices.
pub const MOST_DEVICES: u32 = 16;
/// Shared objects, and sealed objects.
pub const MOST_OBJECTS: u32 = 64;
/// Bytes of a shared or sealed object, of globals, of text, of initial bytes.
pub const MOST_BYTES: u32 = 0x0010_0000;
/// Compartments.
pub const MOST_COMPARTMENTS: u32 = 64;
/// Libraries.
pub const MOST_LIBRARIES: u32 = 32;
/// Threads in version 1.
pub const MOST_THREADS: u32 = 16;
/// Threads in version 2.
pub const MOST_THREADS_2: u32 = 64;

/// Imports of an owner.
pub const MOST_IMPORTS: u32 = 128;
/// Quotas of a compartment.
pub const MOST_QUOTAS: u32 = 16;
/// Keys of a compartment.
pub const MOST_KEYS: u32 = 3;
/// Slots of a compartment: the switch, imports, quotas and keys, in any mix.
pub const MOST_SLOTS: u32 = 1 + MOST_IMPORTS + MOST_QUOTAS + MOST_KEYS;
/// Exports of an owner.
pub const MOST_EXPORTS: u32 = 64;
/// Report entries of a compartment: its code, its globals, its slots and its exports.
pub const MOST_COMPARTMENT_ENTRIES: u32 = 2 + MOST_SLOTS + MOST_EXPORTS;
/// Report entries of a library: its code, its imports and its exports.
pub const MOST_LIBRARY_ENTRIES: u32 = 1 + MOST_IMPORTS + MOST_EXPORTS;
/// Report entries of all compartments.
pub const MOST_OWN_ENTRIES: u32 = MOST_COMPARTMENTS * MOST_COMPARTMENT_ENTRIES;
/// Report entries of all libraries.
pub const MOST_SHARED_ENTRIES: u32 = MOST_LIBRARIES * MOST_LIBRARY_ENTRIES;
/// Arguments of an export.
pub const MOST_ARGUMENTS: u32 = 6;

/// Bytes of a stack, at least.
pub const LEAST_STACK: u32 = 256;
/// Bytes of a stack that a description asks for, at most; also of the stack that an export asks for.
pub const MOST_STACK: u32 = 32_752;
/// Bytes of a stack's region, at most.
pub const MOST_STACK_REGION: u32 = 0x8000;
/// Frames of a thread.
pub const MOST_FRAMES: u32 = 96;
/// The greatest priority.
pub const MOST_PRIORITY: u32 = 15;

/// Steps from one tick to the next, at most.
pub const MOST_QUANTUM: u32 = 1_000_000;
/// The limit of a quota, at most, in bytes.
pub const MOST_QUOTA: u32 = 0x7FFF_FFFF;
/// Granules that one slice of the revoker passes in version 1.
pub const SWEEP_RATE: u32 = 64;
/// The same, at most, in version 2.
pub const MOST_SWEEP_RATE: u32 = 0x0001_0000;

/// Characters of a name.
pub const MOST_NAME: u32 = 32;
/// Characters of a file's name.
pub const MOST_FILE_NAME: u32 = 255;

/// The last version of descriptions and images; the first is 1.
pub const LAST_VERSION: u32 = 2;
/// Granules that one slice of the revoker passes, at least, in version 2.
pub const LEAST_SWEEP_RATE: u32 = 1;
