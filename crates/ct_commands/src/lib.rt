//! The words of the command line, the files that they name, the lines that refuse, and the answer of `why`
//! (docs/use/run.md, docs/use/errors.md).
#![tactic(auto)]

mod files;
mod lines;
mod names;
mod path_line;
mod refusing;
mod why;
mod words;
mod writing;

pub use files::{Stop, read_file, read_sources};
pub use refusing::{
    refuse_description, refuse_file, refuse_image, refuse_link, refuse_name, refuse_policy,
    refuse_script, refuse_usage,
};
pub use why::line;
pub use words::{Form, Task, form_of};
pub use writing::close;
