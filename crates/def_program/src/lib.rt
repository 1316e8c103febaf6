//! What the program does over descriptions and images, from both ends: words and files in, bytes and
//! status out. It is written as a dialogue: after the files that were read so far, either a file is
//! due, or a text and a status. The commands are `audit`, `image`, `run` and `runimage`, each with a
//! script or without, `why`, `upgrade`, `check` and `demo`. The definitions stand in specs/; nothing here
//! computes but the statuses' numbers.
#![tactic(auto)]

ghost use Rattle.std.specs.Prelude.{◌≡◌};
ghost use Rattle.def_program.specs.Codes.{code_of};

/// The greatest number that a firmware is generated from.
pub const MOST_NUMBER: u32 = 4_294_967_295;
/// The steps that `demo` makes at most.
pub const DEMO_STEPS: u32 = 100_000;

/// How a call of the program ended.
#[derive(Clone, Copy, PartialEq, Eq, Drop)]
pub enum Status {
    /// The output is whole.
    Done,
    /// The words are not a form of the command line.
    Usage,
    /// A file could not be read.
    ReadFault,
    /// A file has more than 16,777,216 bytes.
    TooLarge,
    /// The description is not well-formed.
    Description,
    /// A source has a fault of its own.
    Assembly,
    /// The description and its sources don't link.
    Link,
    /// The bytes are no accepted image.
    Image,
    /// A line of the script is at fault.
    Script,
    /// The output could not be written.
    WriteFault,
    /// Memory was wanted. Nothing is written.
    NoMemory,
    /// A name that is asked for stands for nothing.
    Name,
    /// A rule of the policy is broken.
    Denied,
    /// A line of the policy is at fault.
    Policy,
}

impl Status {
    /// The number that the process ends with.
    pub fn code(self) -> u8
        ensures { result ≡ code_of self }
    {
        match self {
            Status::Done => 0,
            Status::Usage => 1,
            Status::ReadFault => 2,
            Status::TooLarge => 3,
            Status::Description => 4,
            Status::Assembly => 5,
            Status::Link => 6,
            Status::Image => 7,
            Status::Script => 8,
            Status::WriteFault => 9,
            Status::NoMemory => 10,
            Status::Name => 11,
            Status::Denied => 12,
            Status::Policy => 13,
        }
    }
}
