//! What each command writes of an image.

ghost use Rattle.std.specs.Prelude.{◌≡◌, ◌≤◌, [], ℕ, List, IfOk, option_map, string_bytes};
ghost use Rattle.def_image.specs.Parts.{upgraded};
ghost use Rattle.def_image.specs.Spelling.{image_bytes};
ghost use Rattle.def_report.specs.Report.{report_line};
ghost use Rattle.def_program.specs.declared.Status.TheVariants as status;
ghost use Rattle.def_program.specs.Paths.{compartment_named, owner_named};
ghost use Rattle.def_program.specs.Turns.{NamesFound, OfParts, OfPolicy};
ghost use Rattle.ct_commands.specs.Ended.{EndsBy};
ghost use Rattle.ct_commands.specs.Settled.{Settles};
ghost use Rattle.ct_commands.specs.Forms.{IsShort, command_for};
ghost use Rattle.ct_commands.specs.Found.{IsFound};
ghost use Rattle.ct_top.specs.Done.{IsDone};

use crate::policies::judge;
use crate::runs::{demonstrate, run};
use ct_commands::{Task, close, read_file, refuse_file, refuse_name};
use ct_graph::Graph;
use ct_image::Image;
use ct_port::{Folder, NoMemory, Sink};
use def_program::Status;
use std::alloc::Global;

/// The report line of an image.
pub(crate) fn report_of(alloc: Global, image: &Image) -> Result<String, NoMemory>
    ensures { IfOk result (λ s. string_bytes s ≡ report_line image.now) }
{
    let entries = ct_entries::entries(alloc, image)?;
    let graph = Graph::of(alloc, &entries)?;
    ct_report::text(alloc, image, &entries, &graph)
}

/// Writes the report line of an image.
fn audit<S: Sink>(alloc: Global, image: &Image, sink: &mut S) -> Status
    ensures { IsDone (S.shows sink.old) (S.shows sink.new) (report_line image.now) result }
{
    match report_of(alloc, image) {
        Ok(line) => close(line.as_bytes(), Status::Done, sink),
        Err(_) => Status::NoMemory,
    }
}

/// Writes the bytes of an image.
fn write_image<S: Sink>(alloc: Global, image: &Image, sink: &mut S) -> Status
    ensures { IsDone (S.shows sink.old) (S.shows sink.new) (image_bytes image.now) result }
{
    match ct_image::write(alloc, image) {
        Ok(bytes) => close(bytes.as_slice(), Status::Done, sink),
        Err(_) => Status::NoMemory,
    }
}

/// Writes the bytes of an image in the last version of the format, with its sweep rate.
fn upgrade<S: Sink>(alloc: Global, image: &Image, sink: &mut S) -> Status
    ensures { IsDone (S.shows sink.old) (S.shows sink.new)
        (image_bytes (upgraded image.now)) result }
{
    match image.copy(alloc) {
        Ok(copy) => write_image(alloc, &copy.upgraded(), sink),
        Err(_) => Status::NoMemory,
    }
}

/// The line of how an owner reaches a compartment, both by their names; none where one of both stands
/// for nothing.
fn why_line(
    alloc: Global,
    image: &Image,
    owner: &str,
    compartment: &str,
) -> Result<Option<String>, NoMemory>
    ensures { IfOk result
        (λ found.
        IsFound image.now (owner_named image.now owner.now)
        (compartment_named image.now compartment.now) (option_map string_bytes found)) }
{
    let entries = ct_entries::entries(alloc, image)?;
    let graph = Graph::of(alloc, &entries)?;
    ct_commands::line(alloc, image, &graph, owner, compartment)
}

/// Writes how an owner reaches a compartment, or refuses their names.
fn why<S: Sink>(
    alloc: Global,
    image: &Image,
    owner: &str,
    compartment: &str,
    sink: &mut S,
) -> Status
    ensures { Settles
        (NamesFound image.now (owner_named image.now owner.now)
        (compartment_named image.now compartment.now))
        (S.shows sink.old) (S.shows sink.new) result }
{
    let found = match why_line(alloc, image, owner, compartment) {
        Ok(found) => found,
        Err(_) => return Status::NoMemory,
    };
    match found {
        Some(line) => close(line.as_bytes(), Status::Done, sink),
        None => refuse_name(sink),
    }
}

/// Reads a policy and judges an image by it.
fn check<F: Folder, S: Sink>(
    alloc: Global,
    policy: &str,
    image: &Image,
    folder: &mut F,
    sink: &mut S,
) -> Status
    ensures { EndsBy (OfPolicy policy.now image.now)
        (F.shows folder.old) (F.shows folder.new) (S.shows sink.old) (S.shows sink.new) result }
{
    let text = match read_file(alloc, policy, folder) {
        Ok(text) => text,
        Err(stop) => return refuse_file(stop, sink),
    };
    judge(alloc, image, text.as_slice(), sink)
}

/// What is to be done with an image.
pub(crate) fn finish<F: Folder, S: Sink>(
    alloc: Global,
    task: Task,
    image: &Image,
    folder: &mut F,
    sink: &mut S,
) -> Status
    requires { IsShort task }
    ensures { (name : List ℕ)
        → EndsBy (OfParts (command_for name task.entry) image.now)
        (F.shows folder.old) (F.shows folder.new) (S.shows sink.old) (S.shows sink.new) result }
{
    match task {
        Task::Audit => audit(alloc, image, sink),
        Task::Image => write_image(alloc, image, sink),
        Task::Run { limit, script } => run(alloc, image, limit, script, folder, sink),
        Task::RunImage { limit, script } => run(alloc, image, limit, script, folder, sink),
        Task::Why { owner, compartment } => why(alloc, image, owner, compartment, sink),
        Task::Upgrade => upgrade(alloc, image, sink),
        Task::Check { policy } => check(alloc, policy, image, folder, sink),
        Task::Demo { .. } => demonstrate(alloc, image, sink),
    }
}
