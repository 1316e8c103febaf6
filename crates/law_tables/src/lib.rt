//! Tables and numbers by their values, as the documents give them: limits, the machine, images, descriptions, sources,
//! permissions, the generated firmware. Functions with empty bodies whose contracts state them.
#![tactic(auto)]

mod choices;
mod demo;
mod images;
mod limits;
mod machine;
mod members;
mod names;
mod rights;
mod statements;

pub use choices::choices_of_descriptions;
pub use demo::numbers_of_demo;
pub use images::numbers_in_images;
pub use limits::{limits_of_files, limits_of_images};
pub use machine::{native_routines, numbers_of_traps, places_in_ram, types_of_seals};
pub use members::members_of_descriptions;
pub use names::{bytes_of_names, ranges_meet};
pub use rights::rights_of_kinds;
pub use statements::{names_of_registers, words_of_statements};
