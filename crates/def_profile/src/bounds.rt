//! How a word spells bounds: in units of 2^e, with e from 0 to `LAST_EXPONENT`, or `WIDEST_EXPONENT`.

/// The greatest exponent that the field E spells as itself.
pub const LAST_EXPONENT: u32 = 14;
/// The exponent of the widest bounds.
pub const WIDEST_EXPONENT: u32 = 24;
/// What E has for that exponent.
pub const WIDEST_FIELD: u32 = 15;
/// Units that bounds have, at most, where the exponent isn't the widest.
pub const MOST_UNITS: u32 = 511;
