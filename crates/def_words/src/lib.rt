//! The words of a capability machine, as plain data: the capability with its shadow, decoded and
//! rounded bounds, traps and the interrupt posture. The written definitions over them stand in
//! specs/; beside the two forms of a trap nothing here computes. docs/use/capabilities.md tells the same in prose.
#![tactic(auto)]

ghost use Rattle.std.specs.Prelude.{◌≡◌};
ghost use Rattle.def_words.specs.Traps.{capability_trap, plain_trap};

use def_profile::traps::CAPABILITY_FAULT;

/// Where a tagged capability comes from. No instruction reads it.
///
/// `root` is the number of a report entry, or 0 for the trusted part. `source` is the allocation
/// number of a heap capability, the export's entry number of a disabling return sentry, else 0.
/// An untagged capability has both 0.
#[derive(Clone, Copy, Debug, PartialEq, Eq, Drop)]
pub struct Shadow {
    pub root: u32,
    pub source: u32,
}

/// A capability: a tag, 64 bits and a shadow.
///
/// The low 32 bits of `word` are the address, the high 32 the metadata (docs/use/capabilities.md).
#[derive(Clone, Copy, Debug, PartialEq, Eq, Drop)]
pub struct Cap {
    pub word: u64,
    pub tag: bool,
    pub shadow: Shadow,
}

/// Why an instruction didn't act: the cause, for cause 28 a code, and the register that failed
/// (16 for the program counter capability). Code and register of other causes are 0.
#[derive(Clone, Copy, Debug, PartialEq, Eq, Drop)]
pub struct Trap {
    pub cause: u32,
    pub code: u32,
    pub register: u32,
}

impl Trap {
    /// A failed check of a capability: the code says which check, the register which capability.
    pub fn capability(code: u32, register: u32) -> Trap
        ensures { result ≡ capability_trap code register }
    {
        Trap {
            cause: CAPABILITY_FAULT,
            code,
            register,
        }
    }

    /// A trap of another cause.
    pub fn plain(cause: u32) -> Trap
        ensures { result ≡ plain_trap cause }
    {
        Trap {
            cause,
            code: 0,
            register: 0,
        }
    }
}

/// Whether a thread holds interrupts off, and then the entry number of the export that it holds
/// them off by; `source` is 0 where they are on.
#[derive(Clone, Copy, Debug, PartialEq, Eq, Drop)]
pub struct Posture {
    pub off: bool,
    pub source: u32,
}

/// Decoded bounds: the exponent (0 to 14, or 24), and addresses with `base <= x < top` inside.
/// The base is below 2^32, the top below 2^33.
#[derive(Clone, Copy, Debug, PartialEq, Eq, Drop)]
pub struct Bounds {
    pub exponent: u32,
    pub base: u64,
    pub top: u64,
}

/// The least bounds of a range: the fields E, B and T in place (22 bits), the rounded base and
/// top, and whether nothing was rounded.
#[derive(Clone, Copy, Debug, PartialEq, Eq, Drop)]
pub struct Rounded {
    pub fields: u32,
    pub base: u64,
    pub top: u64,
    pub exact: bool,
}
