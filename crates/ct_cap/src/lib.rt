//! Operations on capabilities, some of them where a capability stands.
//!
//! A register holds a capability decoded (`Live`); contracts see it as the capability alone, and
//! each operation equals its equation in *Capability* of def_words. None of them traps: where one is
//! refused the tag goes and the bits are the stated ones. docs/use/capabilities.md tells the rules.
#![tactic(auto)]

mod bounding;
mod comparing;
mod counter;
mod live;
mod passing;
mod pointing;
mod rights;
mod seals;
mod standing;
mod words;

pub use bounding::{set_bounds, set_bounds_exact};
pub use comparing::{same, subset};
pub use counter::{raise, turn};
pub use ct_bounds::Bounds;
pub use ct_perm::{Flags, Perms};
pub use def_words::{Cap, Posture, Shadow, Trap};
pub use live::{Live, expand, shrink};
pub use passing::{attenuate, derive, link, open};
pub use pointing::{add_address, set_address};
pub use rights::{and_perms, clear_tag};
pub use seals::{seal, unseal};
pub use standing::{open_in_place, seal_in_place, untag};
