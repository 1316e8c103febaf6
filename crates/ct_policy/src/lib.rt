//! Policies: rules on an image's report, read from a text and judged (docs/use/policies.md;
//! definitions in def_policy).
//!
//! `read` takes a text apart once, line by line, and looks each name up; `broken` links the entries once
//! by what rules ask for, and then goes for each rule through those alone that come into question. Both
//! take time that grows as the text does. `owner_named` and `compartment_named` find what a name stands
//! for, `add_names` writes the names of owners.
#![tactic(auto)]

mod breaking;
mod forms;
mod index;
mod judging;
mod kinds;
mod links;
mod names;
mod parts;
mod policy;
mod reading;
mod rulings;
mod words;

pub use def_policy::PolicyFault;
pub use names::{add_names, compartment_named, owner_named};
pub use policy::{Rules, broken, read};
