//! Laws of the program: the forms of its words and the lines of its refusals, what is due on the samples, that exactly
//! one turn follows after the same files, that what `image` and `upgrade` write `runimage` runs to the same text, what
//! follows from the program's answers, and that the runs that commands ask for are licensed and safe. Functions with
//! empty bodies whose contracts are the laws.
#![tactic(auto)]

mod answers;
mod commands;
mod images_alike;
mod numbers;
mod reports;
mod samples;
mod turns;
mod words;

pub use answers::{completes, told_files_decide};
pub use commands::{
    allowed_policies_are_kept, commands_are_safe, runs_are_lawful, runs_are_told,
    written_runs_are_safe,
};
pub use images_alike::{stored_images_run_alike, upgraded_images_run_alike};
pub use numbers::numbers_of_the_program;
pub use reports::labels_fit_rows;
pub use samples::samples_are_told;
pub use turns::one_turn;
pub use words::{forms_of_words, refusal_lines, rounds};
