//! The words of the command line (docs/use/run.md).

ghost use Rattle.std.specs.Prelude.{◌≡◌, ◌≤◌, map, option_map, string_bytes, ℕ, List, IfSome};
ghost use Rattle.def_profile.specs.declared.limits.TheConstants.{MOST_STEPS};
ghost use Rattle.def_program.specs.Commands as spec;
ghost use Rattle.ct_commands.specs.Forms.{command_for, command_of, script_named, IsShort};

use ct_texts::number_of;
use def_profile::limits::MOST_STEPS;
use def_program::MOST_NUMBER;

/// What is done with a file that was read.
#[derive(Clone, Copy, PartialEq, Eq)]
pub enum Task<'a> {
    /// The report of a description is written.
    Audit,
    /// The image of a description is written.
    Image,
    /// A description's image runs for at most so many steps, by the script in the file of this name
    /// where there is one.
    Run {
        limit: u32,
        script: Option<&'a str>,
    },
    /// An image runs so.
    RunImage {
        limit: u32,
        script: Option<&'a str>,
    },
    /// How an owner of a description reaches a compartment is written.
    Why {
        owner: &'a str,
        compartment: &'a str,
    },
    /// An image is written in the last version of the format.
    Upgrade,
    /// A description's report is judged by the policy in the file of this name.
    Check {
        policy: &'a str,
    },
    /// The firmware that is generated from a number runs, and the summary is written. No file is read.
    Demo {
        number: u32,
    },
}

impl<'a> Task<'a> {
    /// Whether the first file is an image; else it is a description.
    pub fn reads_image(self) -> bool
        ensures { (name : List ℕ) → result ≡ spec.reads_image (command_for name self.entry) }
    {
        match self {
            Task::RunImage { .. } | Task::Upgrade => true,
            _ => false,
        }
    }

    /// The number from which the command's firmware is generated. Such a command reads no file.
    pub fn number(self) -> Option<u32>
        ensures { (name : List ℕ) → result ≡ spec.generated_by (command_for name self.entry) }
    {
        match self {
            Task::Demo { number } => Some(number),
            _ => None,
        }
    }
}

/// A command: its first file, if it has one, and what is done with it.
#[derive(Clone, Copy)]
pub struct Form<'a> {
    pub name: &'a str,
    pub task: Task<'a>,
}

/// A limit: decimal digits without sign or leading zero, of 1 to 4,000,000,000.
fn limit_of(text: &[u8]) -> Option<u32>
    ensures small { IfSome result (λ n. n ≤ MOST_STEPS) }
    ensures value { result ≡ spec.limit_of text.now }
{
    match number_of(text, MOST_STEPS as u64) {
        Some(number) => {
            if number == 0 {
                None
            } else {
                Some(number as u32)
            }
        }
        None => None,
    }
}

/// The number of a generated firmware: decimal digits without sign or leading zero, of 0 to 4,294,967,295.
fn firmware_number(text: &[u8]) -> Option<u32>
    ensures { result ≡ spec.argument_number text.now }
{
    match number_of(text, MOST_NUMBER as u64) {
        Some(number) => Some(number as u32),
        None => None,
    }
}

/// The command of these words, those after the program's name, where they are a form of the command
/// line.
pub fn form_of<'a>(words: &'a [String]) -> Option<Form<'a>>
    ensures short { IfSome result (λ f. IsShort f.task) }
    ensures command { option_map command_of result
        ≡ spec.command_form (map string_bytes words.now) }
{
    match words {
        [word, name] => of_one(word.as_str(), name.as_str()),
        [word, name, last] => of_two(word.as_str(), name.as_str(), last.as_str()),
        [word, name, second, last] => of_three(
            word.as_str(),
            name.as_str(),
            second.as_str(),
            last.as_str(),
        ),
        _ => None,
    }
}

fn demo_of<'a>(name: &'a str) -> Option<Form<'a>>
    ensures short { IfSome result (λ f. IsShort f.task) }
    ensures command { option_map command_of result
        ≡ option_map spec.Demo (spec.argument_number name.now) }
{
    match firmware_number(name.as_bytes()) {
        Some(number) => Some(Form {
            name,
            task: Task::Demo { number },
        }),
        None => None,
    }
}

/// `audit DESC`, `image DESC`, `upgrade IMAGE`, `demo NUMBER`.
fn of_one<'a>(word: &str, name: &'a str) -> Option<Form<'a>>
    ensures short { IfSome result (λ f. IsShort f.task) }
    ensures command { option_map command_of result ≡ spec.of_one word.now name.now }
{
    if word == "audit" {
        let task = Task::Audit;
        return Some(Form { name, task });
    }
    if word == "image" {
        let task = Task::Image;
        return Some(Form { name, task });
    }
    if word == "upgrade" {
        let task = Task::Upgrade;
        return Some(Form { name, task });
    }
    if word == "demo" {
        return demo_of(name);
    }
    None
}

/// `run DESC LIMIT`, `runimage IMAGE LIMIT`, `check DESC POLICY`.
fn of_two<'a>(word: &str, name: &'a str, last: &'a str) -> Option<Form<'a>>
    ensures short { IfSome result (λ f. IsShort f.task) }
    ensures command { option_map command_of result ≡ spec.of_two word.now name.now last.now }
{
    if word == "run" {
        return run_of(name, last, None);
    }
    if word == "runimage" {
        return run_image_of(name, last, None);
    }
    if word == "check" {
        let task = Task::Check { policy: last };
        return Some(Form { name, task });
    }
    None
}

fn run_of<'a>(name: &'a str, limit: &str, script: Option<&'a str>) -> Option<Form<'a>>
    ensures short { IfSome result (λ f. IsShort f.task) }
    ensures command { option_map command_of result
        ≡ spec.run_of name.now limit.now (script_named script.entry) }
{
    match limit_of(limit.as_bytes()) {
        Some(limit) => Some(Form {
            name,
            task: Task::Run { limit, script },
        }),
        None => None,
    }
}

fn run_image_of<'a>(name: &'a str, limit: &str, script: Option<&'a str>) -> Option<Form<'a>>
    ensures short { IfSome result (λ f. IsShort f.task) }
    ensures command { option_map command_of result
        ≡ spec.run_image_of name.now limit.now (script_named script.entry) }
{
    match limit_of(limit.as_bytes()) {
        Some(limit) => Some(Form {
            name,
            task: Task::RunImage { limit, script },
        }),
        None => None,
    }
}

/// `run DESC LIMIT SCRIPT`, `runimage IMAGE LIMIT SCRIPT`, `why DESC OWNER COMPARTMENT`.
fn of_three<'a>(word: &str, name: &'a str, second: &'a str, last: &'a str) -> Option<Form<'a>>
    ensures short { IfSome result (λ f. IsShort f.task) }
    ensures command { option_map command_of result
        ≡ spec.of_three word.now name.now second.now last.now }
{
    if word == "run" {
        return run_of(name, second, Some(last));
    }
    if word == "runimage" {
        return run_image_of(name, second, Some(last));
    }
    if word == "why" {
        let task = Task::Why {
            owner: second,
            compartment: last,
        };
        return Some(Form { name, task });
    }
    None
}
