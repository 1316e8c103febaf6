//! The types of sealed capabilities. With `EX` a seal field is its type; without, its type less 8.

/// A forward sentry that leaves the interrupt posture as it is.
pub const SENTRY_INHERIT: u32 = 1;
/// A forward sentry that holds interrupts off.
pub const SENTRY_DISABLE: u32 = 2;
/// A forward sentry that turns interrupts on.
pub const SENTRY_ENABLE: u32 = 3;
/// A return sentry that holds interrupts off.
pub const RETURN_DISABLE: u32 = 4;
/// A return sentry that turns interrupts on.
pub const RETURN_ENABLE: u32 = 5;
/// What a type without `EX` exceeds its seal field by.
pub const DATA_TYPES: u32 = 8;
/// A call import: the row of the export that it names.
pub const EXPORT_TYPE: u32 = 9;
/// A quota.
pub const QUOTA_TYPE: u32 = 10;
/// A key or token that firmware made at run time.
pub const TOKEN_TYPE: u32 = 11;
/// The first of the types that a key in an import table may open.
pub const FIRST_KEY_TYPE: u32 = 13;
/// The last of them.
pub const LAST_KEY_TYPE: u32 = 15;
