//! Memory with tags, as a list of granules: what a granule holds, and what each access, each
//! clearing and each marking does to the list. The definitions stand in specs/; offsets count
//! bytes from the start of RAM. docs/use/machine.md tells the same in prose.
#![tactic(auto)]

use def_words::Cap;

/// Eight bytes of RAM that are aligned to eight, with what is kept beside them.
///
/// The word of `cap` holds the bytes, little-endian: the byte at the granule's own offset is the
/// lowest. `mark` says that the granule belongs to a freed heap object that is in quarantine.
#[derive(Clone, Copy, PartialEq, Eq, Drop)]
pub struct Granule {
    pub cap: Cap,
    pub mark: bool,
}
