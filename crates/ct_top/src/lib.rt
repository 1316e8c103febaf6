//! The top call: words and files in, bytes and a status out (docs/use/run.md, docs/claims/claims.md).
//! Its clauses say, for each status, from what it comes and what was written; the definitions stand in
//! def_program.
#![tactic(auto)]

mod commands;
mod dialogue;
mod policies;
mod runs;

ghost use Rattle.std.specs.Prelude.{◌≡◌, ℕ, List, Some, map, string_bytes};
ghost use Rattle.def_image.specs.Parts.{PartsRow};
ghost use Rattle.def_image.specs.Sound.{Sound};
ghost use Rattle.def_program.specs.Allowing.{IsAllowed};
ghost use Rattle.def_program.specs.Answers.{Answers};
ghost use Rattle.def_program.specs.Commands.{Command, command_form as form_in};
ghost use Rattle.def_program.specs.Calls.{call_record};
ghost use Rattle.def_program.specs.Licences.{IsLicensedCommand, StandFor};
ghost use Rattle.def_program.specs.Safe.{IsSafeCommand};
ghost use Rattle.def_program.specs.Deciding.{IsDecided};
ghost use Rattle.def_program.specs.Written.{IsRunWritten};

use ct_commands::{form_of, refuse_usage};
use ct_port::{Folder, Sink};
pub use def_program::Status;
use dialogue::perform;
pub use runs::ready;
use std::alloc::Global;

/// Runs one command. The words are those after the program's name:
///
/// - `audit DESC` links the description in the file DESC with its sources, and writes the report of the
///   image;
/// - `image DESC` writes that image;
/// - `run DESC LIMIT` runs it for at most LIMIT steps, and writes the report, the lines of what happened
///   and the summary; `run DESC LIMIT SCRIPT` does so with the bytes that the script in the file SCRIPT
///   gives to devices;
/// - `runimage IMAGE LIMIT` and `runimage IMAGE LIMIT SCRIPT` do the same with the image in the file IMAGE;
/// - `why DESC OWNER COMPARTMENT` writes how a compartment or a library of the description reaches a
///   compartment;
/// - `upgrade IMAGE` writes the image in the file IMAGE in the last version of the format, with its sweep
///   rate;
/// - `check DESC POLICY` judges the report of the description by the policy in the file POLICY: it writes
///   `allow`, or a line for each rule and entry that breaks it, and one for each rule that wants an owner
///   apart from a compartment which it reaches, with the path;
/// - `demo NUMBER` generates a firmware from the number, links it, runs it for at most 100,000 steps and
///   writes the summary; it reads no file.
///
/// The clauses:
///
/// - `answer`: every status has its cause, and the text that is due to it was written: whole, or under
///   `WriteFault` a beginning of it, or under `NoMemory` nothing. Each file that was read was due then
///   and asked for with the limit of 16,777,216 bytes, and no read but the last failed.
/// - `decided`: where no fault is counted and the folder tells the files that are due, the call ends with
///   the status that is due after them, a refusal or not, or wants memory; a file that is told to be too
///   large is `TooLarge`, and one that is told to be absent `ReadFault`.
/// - `written`: a run that is done wrote the report line, the lines of a list of what happened, and the
///   summary; and each of that same list is licensed by the entries of the image that the files which
///   were read stand for, and the run of its events is safe, as the next two clauses say it.
/// - `allowed`: a `check` that is done read the files that stand for an image, and a policy; and what each
///   line of that policy means holds of every run of the image.
/// - `sound`: the parts that files stand for are sound: what acceptance says of them, in plain facts.
/// - `licensed`: each deed, and each span with interrupts off, of the run that the words ask for is
///   licensed by the entries of the image, whatever sound parts it has, whatever their code bytes are and
///   whatever the script says.
/// - `safe`: of that run: calls are clean and accesses licensed; nothing is loaded, stored, waited for or
///   woken through a capability of an object after its free; each allocation hands out a fresh object; a trap
///   is that of the first check that fails; charges follow what is told; what the thread that carries on holds
///   reaches RAM, devices and native entries alone; a frame's error handler is entered where a trap is told
///   that enters it, and only once; keys and tokens are kept; a freed chunk is handed out again only after a
///   whole sweep that began after the free; and the live charges on each quota are at most its limit after
///   every event. What it tells is what was done, by the thread, the compartment and the entry that it names;
///   what is done is told; and a step of which a check fails does nothing but trap. What an event changes it
///   changes for a reason that is listed: code stays as it is, and globals, stacks, live objects and devices
///   change by those alone who may. Whatever stands comes of what stood, loads attenuate, and a capability
///   without GL is held by stacks alone, of all granules.
///
/// What files hold and what was written is said of a folder and a sink that tell it. The system's
/// tell nothing: there the clauses speak of statuses, names, limits and counts alone.
pub fn capfw<F: Folder, S: Sink>(
    alloc: Global,
    words: &[String],
    folder: &mut F,
    sink: &mut S,
) -> Status
    ensures answer { Answers (call_record (map string_bytes words.now)
        (F.shows folder.old) (F.shows folder.new) (S.shows sink.old) (S.shows sink.new)) result }
    ensures decided { IsDecided (call_record (map string_bytes words.now)
        (F.shows folder.old) (F.shows folder.new) (S.shows sink.old) (S.shows sink.new)) result }
    ensures written { IsRunWritten (call_record (map string_bytes words.now)
        (F.shows folder.old) (F.shows folder.new) (S.shows sink.old) (S.shows sink.new)) result }
    ensures allowed { IsAllowed (call_record (map string_bytes words.now)
        (F.shows folder.old) (F.shows folder.new) (S.shows sink.old) (S.shows sink.new)) result }
    ensures sound { (asked : Command) (files : List (List ℕ)) (p : PartsRow)
        → StandFor asked files p → Sound p }
    ensures licensed { (asked : Command) (p : PartsRow)
        → form_in (map string_bytes words.now) ≡ Some asked → Sound p → IsLicensedCommand asked p }
    ensures safe { (asked : Command) (p : PartsRow)
        → form_in (map string_bytes words.now) ≡ Some asked → Sound p → IsSafeCommand asked p }
{
    command(alloc, words, folder, sink)
}

fn command<F: Folder, S: Sink>(
    alloc: Global,
    words: &[String],
    folder: &mut F,
    sink: &mut S,
) -> Status
    ensures { Answers (call_record (map string_bytes words.now)
        (F.shows folder.old) (F.shows folder.new) (S.shows sink.old) (S.shows sink.new)) result }
{
    match form_of(words) {
        Some(form) => perform(alloc, &form, folder, sink),
        None => refuse_usage(sink),
    }
}
