//! The members of each part of a description, what may stand at each, and the lists of a part.
//!
//! A member's row is its name, what stands there, and whether it must be there.

use crate::PartWord;
use ct_entry::Mode;
use def_native as native;
use def_profile::limits::{
    LAST_VERSION, LEAST_RAM, LEAST_STACK, MOST_ARGUMENTS, MOST_BYTES, MOST_COMPARTMENTS,
    MOST_DEVICES, MOST_EXPORTS, MOST_FRAMES, MOST_IMPORTS, MOST_KEYS, MOST_LIBRARIES, MOST_OBJECTS,
    MOST_PRIORITY, MOST_QUANTUM, MOST_QUOTA, MOST_QUOTAS, MOST_RAM_2, MOST_STACK, MOST_SWEEP_RATE,
    MOST_THREADS_2, RAM_END,
};
use def_profile::seals::{FIRST_KEY_TYPE, LAST_KEY_TYPE};

/// The lists of texts of which one stands at a member.
#[derive(Clone, Copy, PartialEq, Eq, Drop)]
pub enum Choice {
    Kind,
    Posture,
    LibraryPosture,
    Passes,
}

/// What stands at a member, with its limits. Another kind of value is F2, a value outside the
/// limits is F6.
#[derive(Clone, Copy, PartialEq, Eq, Drop)]
pub enum Shape {
    /// Any text.
    Text,
    /// One of the texts of a list.
    Among { choice: Choice },
    /// A number, from `low` to `high`.
    Number { low: u32, high: u32 },
    /// Such a number that is a multiple of 16.
    Multiple { low: u32, high: u32 },
    /// A list of at most `most` elements.
    List { most: u32 },
    /// An object.
    Object,
    /// Pairs of lower-case hexadecimal digits, `least` to `most` pairs.
    Bytes { least: u32, most: u32 },
    /// Where an export begins: a label, or a number.
    Offset,
    /// Words, or the name of a file.
    Code,
}

/// What an import names: one of these members stands in it.
#[derive(Clone, Copy, Debug, PartialEq, Eq, Drop)]
pub enum Form {
    Device,
    Shared,
    Sealed,
    Call,
    Service,
    Library,
}

/// What arguments and results of a call may be.
#[derive(Clone, Copy, Debug, PartialEq, Eq, Drop)]
pub enum Passes {
    Capabilities,
    Data,
}

const ADDRESS: Shape = Shape::Number {
    low: 0,
    high: 0xFFFF_FFFF,
};

/// The firmware. What differs from version to version has the widest limits here.
pub const FIRMWARE: [(&'static str, Shape, bool); 11] = [
    ("firmware", Shape::Text, true),
    (
        "version",
        Shape::Number {
            low: 1,
            high: LAST_VERSION,
        },
        false,
    ),
    (
        "sweep",
        Shape::Number {
            low: 1,
            high: MOST_SWEEP_RATE,
        },
        false,
    ),
    ("ram", Shape::Object, true),
    (
        "quantum",
        Shape::Number {
            low: 1,
            high: MOST_QUANTUM,
        },
        false,
    ),
    ("devices", Shape::List { most: MOST_DEVICES }, false),
    ("shared", Shape::List { most: MOST_OBJECTS }, false),
    ("sealed", Shape::List { most: MOST_OBJECTS }, false),
    (
        "compartments",
        Shape::List {
            most: MOST_COMPARTMENTS,
        },
        false,
    ),
    (
        "libraries",
        Shape::List {
            most: MOST_LIBRARIES,
        },
        false,
    ),
    (
        "threads",
        Shape::List {
            most: MOST_THREADS_2,
        },
        false,
    ),
];

/// RAM: its first address and its size.
pub const RAM: [(&'static str, Shape, bool); 2] = [
    (
        "base",
        Shape::Multiple {
            low: 0,
            high: RAM_END,
        },
        true,
    ),
    (
        "size",
        Shape::Multiple {
            low: LEAST_RAM,
            high: MOST_RAM_2,
        },
        true,
    ),
];

/// A device.
pub const DEVICE: [(&'static str, Shape, bool); 3] = [
    ("name", Shape::Text, true),
    (
        "kind",
        Shape::Among {
            choice: Choice::Kind,
        },
        true,
    ),
    ("base", ADDRESS, true),
];

/// A shared object.
pub const SHARED: [(&'static str, Shape, bool); 2] = [
    ("name", Shape::Text, true),
    (
        "size",
        Shape::Number {
            low: 1,
            high: MOST_BYTES,
        },
        true,
    ),
];

/// A sealed object: the type of its seal, and its first bytes.
pub const SEALED: [(&'static str, Shape, bool); 3] = [
    ("name", Shape::Text, true),
    (
        "type",
        Shape::Number {
            low: FIRST_KEY_TYPE,
            high: LAST_KEY_TYPE,
        },
        true,
    ),
    (
        "bytes",
        Shape::Bytes {
            least: 1,
            most: MOST_BYTES,
        },
        true,
    ),
];

/// A compartment.
pub const COMPARTMENT: [(&'static str, Shape, bool); 7] = [
    ("name", Shape::Text, true),
    ("code", Shape::Code, true),
    (
        "globals",
        Shape::Number {
            low: 0,
            high: MOST_BYTES,
        },
        false,
    ),
    ("imports", Shape::List { most: MOST_IMPORTS }, false),
    ("quotas", Shape::List { most: MOST_QUOTAS }, false),
    ("keys", Shape::List { most: MOST_KEYS }, false),
    ("exports", Shape::List { most: MOST_EXPORTS }, false),
];

/// An import of a compartment. One of `FORMS` stands in it, and `rights` beside one of `RIGHTED`.
pub const IMPORT: [(&'static str, Shape, bool); 7] = [
    ("as", Shape::Text, true),
    ("device", Shape::Text, false),
    ("shared", Shape::Text, false),
    ("sealed", Shape::Text, false),
    ("call", Shape::Text, false),
    ("service", Shape::Text, false),
    ("library", Shape::Text, false),
];

/// The members of which an import has exactly one.
pub const FORMS: [&'static str; 6] = ["device", "shared", "sealed", "call", "service", "library"];
/// Those of them beside which rights stand.
pub const RIGHTED: [&'static str; 2] = ["device", "shared"];

/// A quota.
pub const QUOTA: [(&'static str, Shape, bool); 2] = [
    ("name", Shape::Text, true),
    (
        "limit",
        Shape::Number {
            low: 0,
            high: MOST_QUOTA,
        },
        true,
    ),
];

/// An export of a compartment.
pub const EXPORT: [(&'static str, Shape, bool); 6] = [
    ("name", Shape::Text, true),
    ("at", Shape::Offset, true),
    (
        "posture",
        Shape::Among {
            choice: Choice::Posture,
        },
        false,
    ),
    (
        "args",
        Shape::Number {
            low: 0,
            high: MOST_ARGUMENTS,
        },
        false,
    ),
    (
        "stack",
        Shape::Number {
            low: 0,
            high: MOST_STACK,
        },
        false,
    ),
    (
        "passes",
        Shape::Among {
            choice: Choice::Passes,
        },
        false,
    ),
];

/// A library.
pub const LIBRARY: [(&'static str, Shape, bool); 4] = [
    ("name", Shape::Text, true),
    ("code", Shape::Code, true),
    ("imports", Shape::List { most: MOST_IMPORTS }, false),
    ("exports", Shape::List { most: MOST_EXPORTS }, false),
];

/// An import of a library.
pub const LIMPORT: [(&'static str, Shape, bool); 2] = [
    ("as", Shape::Text, true),
    ("library", Shape::Text, true),
];

/// An export of a library.
pub const LEXPORT: [(&'static str, Shape, bool); 3] = [
    ("name", Shape::Text, true),
    ("at", Shape::Offset, true),
    (
        "posture",
        Shape::Among {
            choice: Choice::LibraryPosture,
        },
        false,
    ),
];

/// A thread.
pub const THREAD: [(&'static str, Shape, bool); 5] = [
    ("name", Shape::Text, true),
    ("entry", Shape::Text, true),
    (
        "priority",
        Shape::Number {
            low: 0,
            high: MOST_PRIORITY,
        },
        true,
    ),
    (
        "stack",
        Shape::Multiple {
            low: LEAST_STACK,
            high: MOST_STACK,
        },
        true,
    ),
    (
        "frames",
        Shape::Number {
            low: 1,
            high: MOST_FRAMES,
        },
        true,
    ),
];

/// The members of `code`, of which one stands in it.
pub const CODE: [&'static str; 2] = ["words", "file"];

/// The lists of a firmware, in the order in which they are walked after the firmware and RAM.
pub const OUTER: [(PartWord, &'static str); 6] = [
    (PartWord::Device, "devices"),
    (PartWord::Shared, "shared"),
    (PartWord::Sealed, "sealed"),
    (PartWord::Compartment, "compartments"),
    (PartWord::Library, "libraries"),
    (PartWord::Thread, "threads"),
];

/// The lists of a compartment, in the order in which they are walked after it.
pub const OF_COMPARTMENT: [(PartWord, &'static str); 4] = [
    (PartWord::Import, "imports"),
    (PartWord::Quota, "quotas"),
    (PartWord::Key, "keys"),
    (PartWord::Export, "exports"),
];

/// The lists of a library.
pub const OF_LIBRARY: [(PartWord, &'static str); 2] = [
    (PartWord::Limport, "imports"),
    (PartWord::Lexport, "exports"),
];

/// The postures of a compartment's export; the first is the default.
pub const POSTURES: [(&'static str, Mode); 2] = [
    ("enabled", Mode::Enabled),
    ("disabled", Mode::Disabled),
];

/// The postures of a library's export; the first is the default.
pub const LIBRARY_POSTURES: [(&'static str, Mode); 3] = [
    ("inherit", Mode::Inherit),
    ("enabled", Mode::Enabled),
    ("disabled", Mode::Disabled),
];

/// What an export passes; the first is the default.
pub const PASSES: [(&'static str, Passes); 2] = [
    ("capabilities", Passes::Capabilities),
    ("data", Passes::Data),
];

/// The rights of an import of a device.
pub const DEVICE_RIGHTS: [&'static str; 3] = ["R", "W", "RW"];
/// The rights of an import of a shared object.
pub const SHARED_RIGHTS: [&'static str; 6] = ["R", "W", "RW", "RC", "WC", "RWC"];

/// The services that an import may name, with the numbers of their native routines.
pub const SERVICES: [(&'static str, u32); 11] = [
    ("yield", native::YIELD),
    ("sleep", native::SLEEP),
    ("wait", native::WAIT),
    ("wake", native::WAKE),
    ("allocate", native::ALLOCATE),
    ("free", native::FREE),
    ("remaining", native::REMAINING),
    ("token_key", native::TOKEN_KEY),
    ("token_new", native::TOKEN_NEW),
    ("token_open", native::TOKEN_OPEN),
    ("token_free", native::TOKEN_FREE),
];

/// The quantum of a description that doesn't give one.
pub const QUANTUM: u32 = 100;
