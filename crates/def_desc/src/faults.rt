//! Where a description is wrong, and by which rule.

/// The parts of a description.
#[derive(Clone, Copy, Debug, PartialEq, Eq, Drop)]
pub enum PartWord {
    Firmware,
    Ram,
    Device,
    Shared,
    Sealed,
    Compartment,
    Import,
    Quota,
    Key,
    Export,
    Library,
    /// An import of a library.
    Limport,
    /// An export of a library.
    Lexport,
    Thread,
}

/// A place in a description: a part, its index in its outer list, and the index in the inner list,
/// each from 0, and 0 where there is no such list.
#[derive(Clone, Copy, PartialEq, Eq, Drop)]
pub struct Place {
    pub part: PartWord,
    pub index: u32,
    pub item: u32,
}

/// The number after the letter F of what fails, and the first place where it does.
#[derive(Clone, Copy, PartialEq, Eq, Drop)]
pub struct Fault {
    pub number: u32,
    pub place: Place,
}
