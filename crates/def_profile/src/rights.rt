//! The twelve permissions as bits of a set, the rights of each kind of report entry as sets of them,
//! and the high words of the three roots at reset.

/// Global: the capability may be stored through one without `SL`.
pub const GL: u32 = 0x001;
/// Load global: a capability loaded through this one keeps `GL` and `LG`.
pub const LG: u32 = 0x002;
/// Store data.
pub const SD: u32 = 0x004;
/// Load mutable: a capability loaded through this one keeps `SD` and `LM`.
pub const LM: u32 = 0x008;
/// Store local: a capability without `GL` may be stored through this one.
pub const SL: u32 = 0x010;
/// Load data.
pub const LD: u32 = 0x020;
/// Memory capability: capabilities keep their tag on the way through this one.
pub const MC: u32 = 0x040;
/// System registers.
pub const SR: u32 = 0x080;
/// Execute.
pub const EX: u32 = 0x100;
/// Unseal.
pub const US: u32 = 0x200;
/// Seal.
pub const SE: u32 = 0x400;
/// User permission 0.
pub const U0: u32 = 0x800;

/// Every permission.
pub const ALL_RIGHTS: u32 = 0xFFF;
/// A compartment's or library's code, and a library import.
pub const CODE_RIGHTS: u32 = GL + LG + LM + LD + MC + EX;
/// A compartment's globals.
pub const GLOBALS_RIGHTS: u32 = GL + LG + SD + LM + LD + MC;
/// A heap object: what an allocation's capability may do, whatever the quota's entry says.
pub const HEAP_RIGHTS: u32 = GL + LG + SD + LM + LD + MC;
/// A thread's stack.
pub const STACK_RIGHTS: u32 = LG + SD + LM + SL + LD + MC;
/// A service, which is a native entry.
pub const SERVICE_RIGHTS: u32 = GL + LD + MC + EX;
/// A sealed object.
pub const SEALED_RIGHTS: u32 = GL + SD + LD;
/// An export of a compartment, and a call import, which names one.
pub const EXPORT_RIGHTS: u32 = GL + LD;
/// A quota.
pub const QUOTA_RIGHTS: u32 = GL + LD;
/// A key.
pub const KEY_RIGHTS: u32 = GL + US + SE;

/// The high word of the memory root: form capability read-write, bounds 0 to 2^32.
pub const MEMORY_ROOT: u32 = 0x7E3C_0100;
/// The high word of the executable root.
pub const EXECUTABLE_ROOT: u32 = 0x5E3C_0100;
/// The high word of the sealing root.
pub const SEALING_ROOT: u32 = 0x4E3C_0100;
