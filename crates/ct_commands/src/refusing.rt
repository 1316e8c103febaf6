//! The refusals, each with its line and its status. None of them takes memory.

ghost use Rattle.std.specs.Prelude.{◌++◌, ◌∷◌, [], codes, decimal};
ghost use Rattle.def_program.specs.declared.Status.TheVariants as status;
ghost use Rattle.def_program.specs.Lines as spec;
ghost use Rattle.def_program.specs.Lines.{refused, lettered};
ghost use Rattle.ct_commands.specs.Closing.{Closes};
ghost use Rattle.ct_commands.specs.Stopped.{RefusesFile};

use crate::Stop;
use crate::lines::{description_line, line_end, line_front, line_of_two, owner_name};
use crate::writing::{close, close_named};
use ct_desc_rows::Desc;
use ct_port::Sink;
use def_desc::Fault;
use def_link::LinkFault;
use def_program::Status;

/// Refuses words that aren't a form.
pub fn refuse_usage<S: Sink>(sink: &mut S) -> Status
    ensures { Closes (S.shows sink.old) (S.shows sink.new)
        spec.usage_line status.Usage result }
{
    close(b"refused 1 usage\n", Status::Usage, sink)
}

/// Refuses a file that can't be read.
fn refuse_read<S: Sink>(name: &str, sink: &mut S) -> Status
    ensures { Closes (S.shows sink.old) (S.shows sink.new)
        (spec.read_line name.now) status.ReadFault result }
{
    close_named(b"refused 2 read ", name, b"\n", Status::ReadFault, sink)
}

/// Refuses a file that is too large.
fn refuse_large<S: Sink>(name: &str, sink: &mut S) -> Status
    ensures { Closes (S.shows sink.old) (S.shows sink.new)
        (spec.large_line name.now) status.TooLarge result }
{
    close_named(b"refused 3 large ", name, b"\n", Status::TooLarge, sink)
}

/// Refuses a file that isn't given; where memory was wanted nothing is written, and `NoMemory` comes.
pub fn refuse_file<S: Sink>(stop: Stop, sink: &mut S) -> Status
    ensures { RefusesFile stop.entry (S.shows sink.old) (S.shows sink.new) result }
{
    match stop {
        Stop::Unread(name) => refuse_read(name, sink),
        Stop::Large(name) => refuse_large(name, sink),
        Stop::NoMemory => Status::NoMemory,
    }
}

/// Refuses a description, by the rule that it breaks and the place where it does.
pub fn refuse_description<S: Sink>(fault: Fault, sink: &mut S) -> Status
    ensures { Closes (S.shows sink.old) (S.shows sink.new)
        (spec.description_line fault) status.Description result }
{
    close(
        description_line(fault).as_str().as_bytes(),
        Status::Description,
        sink,
    )
}

/// Refuses a source, by the fault's number and the line that is at fault.
fn refuse_source<S: Sink>(owner: &str, number: u32, line: u32, sink: &mut S) -> Status
    ensures { Closes (S.shows sink.old) (S.shows sink.new)
        (refused (codes "5")
        (codes "assembly" ∷ lettered (codes "A") number ∷ owner.now ∷ decimal line ∷ []))
        status.Assembly result }
{
    let front = line_front("refused 5 assembly A", number);
    let rest = line_end(line);
    close_named(
        front.as_str().as_bytes(),
        owner,
        rest.as_str().as_bytes(),
        Status::Assembly,
        sink,
    )
}

/// Refuses to link, by what stands before the owner's name, the name, and a number after it.
fn refuse_owner<S: Sink>(text: &[u8], owner: &str, number: u32, sink: &mut S) -> Status
    ensures { Closes (S.shows sink.old) (S.shows sink.new)
        (text.now ++ (owner.now ++ 32 ∷ (decimal number ++ 10 ∷ []))) status.Link result }
{
    let rest = line_end(number);
    close_named(text, owner, rest.as_str().as_bytes(), Status::Link, sink)
}

/// Refuses regions that don't fit RAM, by the bytes that are needed and those that are there.
fn refuse_room<S: Sink>(needed: u64, has: u64, sink: &mut S) -> Status
    ensures { Closes (S.shows sink.old) (S.shows sink.new)
        (spec.link_line (codes "L2") (decimal needed) has) status.Link result }
{
    let line = line_of_two("refused 6 link L2 ", needed, has);
    close(line.as_str().as_bytes(), Status::Link, sink)
}

/// Refuses a description and its sources; where memory was wanted nothing is written, and `NoMemory`
/// comes.
pub fn refuse_link<S: Sink>(desc: &Desc, fault: LinkFault, sink: &mut S) -> Status
    ensures { Closes (S.shows sink.old) (S.shows sink.new)
        (spec.link_text desc.now fault) (spec.link_status fault) result }
{
    match fault {
        LinkFault::Asm {
            owner,
            number,
            line,
        } => refuse_source(owner_name(desc, owner), number, line, sink),
        LinkFault::Export { owner, item } => {
            refuse_owner(b"refused 6 link L1 ", owner_name(desc, owner), item, sink)
        }
        LinkFault::NoRoom { needed, has } => refuse_room(needed, has, sink),
        LinkFault::Import { owner, line } => {
            refuse_owner(b"refused 6 link L3 ", owner_name(desc, owner), line, sink)
        }
        LinkFault::Initial { owner } => {
            refuse_owner(b"refused 6 link L4 ", owner_name(desc, owner), 0, sink)
        }
        LinkFault::NoMemory => Status::NoMemory,
    }
}

/// Refuses an image, by the fault's number and its place in bytes.
pub fn refuse_image<S: Sink>(number: u32, place: u32, sink: &mut S) -> Status
    ensures { Closes (S.shows sink.old) (S.shows sink.new)
        (spec.image_line number place) status.Image result }
{
    let line = line_of_two("refused 7 image I", number as u64, place as u64);
    close(line.as_str().as_bytes(), Status::Image, sink)
}

/// Refuses a script, by the fault's number and the line that is at fault.
pub fn refuse_script<S: Sink>(number: u32, line: u32, sink: &mut S) -> Status
    ensures { Closes (S.shows sink.old) (S.shows sink.new)
        (spec.script_line number line) status.Script result }
{
    let line = line_of_two("refused 8 script S", number as u64, line as u64);
    close(line.as_str().as_bytes(), Status::Script, sink)
}

/// Refuses a name that stands for nothing.
pub fn refuse_name<S: Sink>(sink: &mut S) -> Status
    ensures { Closes (S.shows sink.old) (S.shows sink.new)
        spec.name_line status.Name result }
{
    close(b"refused 11 name\n", Status::Name, sink)
}

/// Refuses a policy, by the fault's number and the line that is at fault.
pub fn refuse_policy<S: Sink>(number: u32, line: u32, sink: &mut S) -> Status
    ensures { Closes (S.shows sink.old) (S.shows sink.new)
        (spec.policy_line number line) status.Policy result }
{
    let line = line_of_two("refused 13 policy P", number as u64, line as u64);
    close(line.as_str().as_bytes(), Status::Policy, sink)
}
