//! A command, from its form to the status: what is read, and what follows of it.

ghost use Rattle.std.specs.Prelude.{◌≡◌, ◌<◌, ◌^◌, [], ℕ, IfOk, List, length, map, None, Some, string_bytes};
ghost use Rattle.def_link.specs.Linked.{linked};
ghost use Rattle.def_program.specs.declared.Status.TheVariants as status;
ghost use Rattle.def_program.specs.Answers.{Answers};
ghost use Rattle.def_program.specs.Commands.{command_form, generated_by};
ghost use Rattle.def_program.specs.Calls.{call_record};
ghost use Rattle.def_program.specs.Turns.{OfImage, OfLinked, OfNumber};
ghost use Rattle.ct_link_objects.specs.Objects.{IsLinkable};
ghost use Rattle.ct_commands.specs.Ended.{EndsBy};
ghost use Rattle.ct_commands.specs.Settled.{Settles};
ghost use Rattle.ct_commands.specs.Forms.{IsShort, command_for, command_of};
ghost use Rattle.ct_top.specs.Done as done;
ghost use Rattle.ct_top.specs.Done.{IsRefusal, description_turn, image_turn, link_turn};

use crate::commands::finish;
use ct_commands::{Form, Task, read_file, read_sources, refuse_file};
use ct_desc::DescFault;
use ct_desc_rows::Desc;
use ct_gen::generate;
use ct_image::ImageFault;
use ct_link::{LinkFault, Sources, link};
use ct_port::{Folder, Sink};
use def_desc::{Fault, Place};
use def_program::Status;
use std::alloc::{AllocError, Global};

/// Writes the line of bytes that are no description.
fn refuse_description<S: Sink>(fault: DescFault, sink: &mut S) -> Status
    ensures { Settles (IsRefusal (description_turn fault))
        (S.shows sink.old) (S.shows sink.new) result }
{
    match fault {
        DescFault::At {
            number,
            part,
            index,
            item,
        } => {
            let place = Place { part, index, item };
            ct_commands::refuse_description(Fault { number, place }, sink)
        }
        DescFault::NoMemory => Status::NoMemory,
    }
}

/// Writes the line of bytes that are no image.
fn refuse_image<S: Sink>(fault: ImageFault, sink: &mut S) -> Status
    ensures { Settles (IsRefusal (image_turn fault))
        (S.shows sink.old) (S.shows sink.new) result }
{
    match fault {
        ImageFault::At { number, place } => ct_commands::refuse_image(number, place, sink),
        ImageFault::NoMemory => Status::NoMemory,
    }
}

/// Whether memory was wanted.
fn wants_memory(fault: LinkFault) -> bool
    ensures { result ≡ done.wants_memory fault }
{
    match fault {
        LinkFault::NoMemory => true,
        _ => false,
    }
}

/// Writes the line of a description and sources that don't link.
fn refuse_link<S: Sink>(desc: &Desc, fault: LinkFault, sink: &mut S) -> Status
    ensures { Settles (IsRefusal (link_turn desc.now fault))
        (S.shows sink.old) (S.shows sink.new) result }
{
    if wants_memory(fault) {
        return Status::NoMemory;
    }
    ct_commands::refuse_link(desc, fault, sink)
}

/// What follows after an image's bytes.
fn of_image<F: Folder, S: Sink>(
    alloc: Global,
    task: Task,
    bytes: &[u8],
    folder: &mut F,
    sink: &mut S,
) -> Status
    requires short { IsShort task }
    requires small { length bytes.now < 2 ^ 32 }
    ensures { (name : List ℕ)
        → EndsBy (OfImage (command_for name task.entry) bytes.now)
        (F.shows folder.old) (F.shows folder.new) (S.shows sink.old) (S.shows sink.new) result }
{
    match ct_image::accept(alloc, bytes) {
        Ok(image) => finish(alloc, task, &image, folder, sink),
        Err(fault) => refuse_image(fault, sink),
    }
}

/// What follows after a description and all of its sources.
fn of_sources<F: Folder, S: Sink>(
    alloc: Global,
    task: Task,
    desc: &Desc,
    sources: &Sources,
    folder: &mut F,
    sink: &mut S,
) -> Status
    requires short { IsShort task }
    requires linkable { IsLinkable desc.now sources.now }
    ensures { (name : List ℕ)
        → EndsBy (OfLinked (command_for name task.entry) desc.now (linked desc.now sources.now))
        (F.shows folder.old) (F.shows folder.new) (S.shows sink.old) (S.shows sink.new) result }
{
    match link(alloc, desc, sources) {
        Ok(image) => finish(alloc, task, &image, folder, sink),
        Err(fault) => refuse_link(desc, fault, sink),
    }
}

/// The bytes of texts.
fn bytes_of(alloc: Global, texts: &[String]) -> Result<Vec<Vec<u8>>, AllocError>
    ensures { IfOk result (λ v. map (λ b. b.items) v.items ≡ map string_bytes texts.now) }
{
    let mut all = Vec::new(alloc);
    for text in texts {
        all.push(Vec::from_slice(alloc, text.as_bytes())?)?;
    }
    Ok(all)
}

/// What follows of a generated firmware. Its description is well-formed, so that only want of memory
/// refuses it.
fn of_number<F: Folder, S: Sink>(
    alloc: Global,
    task: Task,
    number: u32,
    folder: &mut F,
    sink: &mut S,
) -> Status
    requires { IsShort task }
    ensures { (name : List ℕ)
        → EndsBy (OfNumber (command_for name task.entry) number)
        (F.shows folder.old) (F.shows folder.new) (S.shows sink.old) (S.shows sink.new) result }
{
    let made = match generate(alloc, number) {
        Ok(made) => made,
        Err(_) => return Status::NoMemory,
    };
    let desc = match ct_desc::read(alloc, made.description.as_bytes()) {
        Ok(desc) => desc,
        Err(_) => return Status::NoMemory,
    };
    let texts = match bytes_of(alloc, made.sources.as_slice()) {
        Ok(texts) => texts,
        Err(_) => return Status::NoMemory,
    };
    let sources = Sources { texts };
    let status = of_sources(alloc, task, &desc, &sources, folder, sink);
    drop(sources);
    drop(desc);
    drop(made);
    status
}

/// Does what a form says.
pub(crate) fn perform<F: Folder, S: Sink>(
    alloc: Global,
    form: &Form,
    folder: &mut F,
    sink: &mut S,
) -> Status
    requires { IsShort form.now.task }
    ensures { (words : List (List ℕ)) → command_form words ≡ Some (command_of form.now)
        → Answers (call_record words (F.shows folder.old) (F.shows folder.new)
        (S.shows sink.old) (S.shows sink.new)) result }
{
    match form.task.number() {
        Some(number) => of_number(alloc, form.task, number, folder, sink),
        None => of_files(alloc, form, folder, sink),
    }
}

/// Does what a form says that reads files.
fn of_files<F: Folder, S: Sink>(alloc: Global, form: &Form, folder: &mut F, sink: &mut S) -> Status
    requires short { IsShort form.now.task }
    requires reads { generated_by (command_of form.now) ≡ None }
    ensures { (words : List (List ℕ)) → command_form words ≡ Some (command_of form.now)
        → Answers (call_record words (F.shows folder.old) (F.shows folder.new)
        (S.shows sink.old) (S.shows sink.new)) result }
{
    let bytes = match read_file(alloc, form.name, folder) {
        Ok(bytes) => bytes,
        Err(stop) => return refuse_file(stop, sink),
    };
    if form.task.reads_image() {
        return of_image(alloc, form.task, bytes.as_slice(), folder, sink);
    }
    let desc = match ct_desc::read(alloc, bytes.as_slice()) {
        Ok(desc) => desc,
        Err(fault) => return refuse_description(fault, sink),
    };
    let texts = match read_sources(alloc, &desc, folder) {
        Ok(texts) => texts,
        Err(stop) => return refuse_file(stop, sink),
    };
    let sources = Sources { texts };
    let status = of_sources(alloc, form.task, &desc, &sources, folder, sink);
    drop(sources);
    drop(desc);
    status
}
