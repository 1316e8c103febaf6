//! Laws of descriptions: what is due on samples, and that what a lawful description says is well formed.
//! Functions with empty bodies whose contracts are the laws.
#![tactic(auto)]

mod answers;
mod samples;
mod wellformed;

pub use answers::one_or_the_other;
pub use samples::samples_are_judged;
pub use wellformed::well_formed_is_lawful;
