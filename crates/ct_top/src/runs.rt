//! Runs of an image: by a script or without one, and of a demonstration.

ghost use Rattle.std.specs.Prelude.{◌≡◌, ◌≤◌, ◌<◌, ◌^◌, [], length, IfOk, Some};
ghost use Rattle.def_boot.specs.Boot.{booted_machine};
ghost use Rattle.def_profile.specs.declared.limits.TheConstants.{MOST_FILE, MOST_STEPS};
ghost use Rattle.def_report.specs.Report.{report_line};
ghost use Rattle.def_program.specs.declared.Status.TheVariants.{Done};
ghost use Rattle.def_program.specs.Runs.{demo_text, run_text};
ghost use Rattle.def_program.specs.Scripts.{IsPlayable};
ghost use Rattle.def_program.specs.Turns.{OfRun, OfScript};
ghost use Rattle.ct_commands.specs.Closing.{Closes};
ghost use Rattle.ct_commands.specs.Ended.{EndsBy};
ghost use Rattle.ct_commands.specs.Settled.{Settles};
ghost use Rattle.ct_commands.specs.Forms.{script_named};
ghost use Rattle.ct_top.specs.Done.{IsDone, IsRefusal, script_turn};

use crate::commands::report_of;
use ct_commands::{read_file, refuse_file};
use ct_entry::Devices;
use ct_image::Image;
use ct_planes::Planes;
use ct_port::{Folder, NoMemory, Sink};
use ct_run::{Machine, write_run, write_summary};
use ct_script::{Script, ScriptFault, read};
use def_program::{DEMO_STEPS, Status};
use std::alloc::Global;

/// The machine of an image, in its boot state. The one error is want of memory.
#[tactic(auto, using(crate::proofs::Booted::whole_granules, crate::proofs::Booted::zeros))]
pub fn ready(alloc: Global, image: &Image) -> Result<Machine<Planes>, NoMemory>
    ensures { IfOk result (λ m. m ≡ booted_machine image.now) }
{
    let mem = Planes::new(alloc, image.parts().size)?;
    Machine::start(alloc, image, mem)
}

/// Runs a machine by a script, and writes the report line and the lines of the run.
fn play<S: Sink>(
    image: &Image,
    report: &str,
    machine: &mut Machine<Planes>,
    script: &Script,
    limit: u32,
    sink: &mut S,
) -> Status
    requires report { report.now ≡ report_line image.now }
    requires machine { machine.old ≡ booted_machine image.now }
    requires script { IsPlayable script.now machine.old.state }
    requires limit { limit ≤ MOST_STEPS }
    ensures { Closes (S.shows sink.old) (S.shows sink.new)
        (run_text image.now script.now limit) Done result }
{
    let quantum = image.parts().quantum;
    match write_run(report.as_bytes(), machine, script, quantum, limit, sink) {
        Ok(()) => Status::Done,
        Err(_) => Status::WriteFault,
    }
}

/// Writes the line of a text that is no script.
fn refuse_script<S: Sink>(fault: ScriptFault, sink: &mut S) -> Status
    ensures { Settles (IsRefusal (script_turn fault))
        (S.shows sink.old) (S.shows sink.new) result }
{
    match fault {
        ScriptFault::At { number, line } => ct_commands::refuse_script(number, line, sink),
        ScriptFault::NoMemory => Status::NoMemory,
    }
}

/// The devices of an image.
fn devices_of(image: &Image) -> &Devices
    ensures devices { result.now ≡ image.now.devices }
    ensures few { length result.now < 2 ^ 32 }
{
    &image.parts().devices
}

/// Runs a machine by a script's text, or refuses the text.
fn play_text<S: Sink>(
    alloc: Global,
    image: &Image,
    report: &str,
    machine: &mut Machine<Planes>,
    text: &[u8],
    limit: u32,
    sink: &mut S,
) -> Status
    requires report { report.now ≡ report_line image.now }
    requires machine { machine.old ≡ booted_machine image.now }
    requires text { length text.now ≤ MOST_FILE }
    requires limit { limit ≤ MOST_STEPS }
    ensures { Settles (OfScript image.now limit text.now)
        (S.shows sink.old) (S.shows sink.new) result }
{
    match read(alloc, text, devices_of(image)) {
        Ok(script) => play(image, report, machine, &script, limit, sink),
        Err(fault) => refuse_script(fault, sink),
    }
}

/// Reads a script and runs a machine by it.
fn play_file<F: Folder, S: Sink>(
    alloc: Global,
    image: &Image,
    report: &str,
    machine: &mut Machine<Planes>,
    name: &str,
    limit: u32,
    folder: &mut F,
    sink: &mut S,
) -> Status
    requires report { report.now ≡ report_line image.now }
    requires machine { machine.old ≡ booted_machine image.now }
    requires limit { limit ≤ MOST_STEPS }
    ensures { EndsBy (OfRun image.now limit (Some name.now))
        (F.shows folder.old) (F.shows folder.new) (S.shows sink.old) (S.shows sink.new) result }
{
    match read_file(alloc, name, folder) {
        Ok(text) => play_text(alloc, image, report, machine, text.as_slice(), limit, sink),
        Err(stop) => refuse_file(stop, sink),
    }
}

/// Runs a machine that stands as booted by the script of this name, where there is one, and writes the report line
/// and the lines of the run.
fn run_booted<F: Folder, S: Sink>(
    alloc: Global,
    image: &Image,
    report: &str,
    machine: &mut Machine<Planes>,
    script: Option<&str>,
    limit: u32,
    folder: &mut F,
    sink: &mut S,
) -> Status
    requires report { report.now ≡ report_line image.now }
    requires machine { machine.old ≡ booted_machine image.now }
    requires limit { limit ≤ MOST_STEPS }
    ensures { EndsBy (OfRun image.now limit (script_named script.entry))
        (F.shows folder.old) (F.shows folder.new) (S.shows sink.old) (S.shows sink.new) result }
{
    match script {
        Some(name) => play_file(alloc, image, report, machine, name, limit, folder, sink),
        None => play(image, report, machine, &Script::empty(alloc), limit, sink),
    }
}

/// Runs an image by the script of this name, where there is one, and writes its report line and the lines
/// of the run. The machine is made before the script is read.
pub(crate) fn run<F: Folder, S: Sink>(
    alloc: Global,
    image: &Image,
    limit: u32,
    script: Option<&str>,
    folder: &mut F,
    sink: &mut S,
) -> Status
    requires { limit ≤ MOST_STEPS }
    ensures { EndsBy (OfRun image.now limit (script_named script.entry))
        (F.shows folder.old) (F.shows folder.new) (S.shows sink.old) (S.shows sink.new) result }
{
    let report = match report_of(alloc, image) {
        Ok(report) => report,
        Err(_) => return Status::NoMemory,
    };
    let mut machine = match ready(alloc, image) {
        Ok(machine) => machine,
        Err(_) => return Status::NoMemory,
    };
    let line = report.as_str();
    let status = run_booted(
        alloc,
        image,
        line,
        &mut machine,
        script,
        limit,
        folder,
        sink,
    );
    drop(machine);
    status
}

/// Writes the summary of a machine that stands as booted, after the steps of a demonstration.
fn summarise<S: Sink>(image: &Image, machine: &mut Machine<Planes>, sink: &mut S) -> Status
    requires machine { machine.old ≡ booted_machine image.now }
    ensures { Closes (S.shows sink.old) (S.shows sink.new)
        (demo_text image.now) Done result }
{
    let quantum = image.parts().quantum;
    match write_summary(machine, quantum, DEMO_STEPS, sink) {
        Ok(()) => Status::Done,
        Err(_failed) => Status::WriteFault,
    }
}

/// Runs an image for the steps of a demonstration, and writes the summary.
pub(crate) fn demonstrate<S: Sink>(alloc: Global, image: &Image, sink: &mut S) -> Status
    ensures { IsDone (S.shows sink.old) (S.shows sink.new) (demo_text image.now) result }
{
    match ready(alloc, image) {
        Ok(mut machine) => {
            let status = summarise(image, &mut machine, sink);
            drop(machine);
            status
        }
        Err(_) => Status::NoMemory,
    }
}
