//! What a policy says of an image's report.

ghost use Rattle.std.specs.Prelude.{◌<◌, ◌^◌, IfOk, length, string_bytes};
ghost use Rattle.def_policy.specs.Denials.{AllDenied};
ghost use Rattle.def_program.specs.Turns.{OfText};
ghost use Rattle.ct_commands.specs.Settled.{Settles};
ghost use Rattle.ct_top.specs.Done.{IsRefusal, Judges, policy_turn};

use ct_commands::close;
use ct_graph::Graph;
use ct_image::Image;
use ct_policy::{PolicyFault, Rules, broken, read};
use ct_port::{NoMemory, Sink};
use def_program::Status;
use std::alloc::Global;

/// Writes the line of a text that is no policy.
fn refuse_policy<S: Sink>(fault: PolicyFault, sink: &mut S) -> Status
    ensures { Settles (IsRefusal (policy_turn fault))
        (S.shows sink.old) (S.shows sink.new) result }
{
    match fault {
        PolicyFault::At { number, line } => ct_commands::refuse_policy(number, line, sink),
        PolicyFault::NoMemory => Status::NoMemory,
    }
}

/// The lines that deny an image's policy.
fn denials_of(alloc: Global, rules: &Rules, image: &Image) -> Result<String, NoMemory>
    ensures { IfOk result (λ s. AllDenied image.now 1 rules.now (string_bytes s)) }
{
    let entries = ct_entries::entries(alloc, image)?;
    let graph = Graph::of(alloc, &entries)?;
    broken(alloc, rules, image, &entries, &graph)
}

/// Writes the lines that deny a policy; where there are none, that it is allowed.
fn write_verdict<S: Sink>(lines: &[u8], sink: &mut S) -> Status
    ensures { Settles (Judges lines.now)
        (S.shows sink.old) (S.shows sink.new) result }
{
    if lines.is_empty() {
        close(b"allow\n", Status::Done, sink)
    } else {
        close(lines, Status::Denied, sink)
    }
}

/// Judges an image by a policy's text.
pub(crate) fn judge<S: Sink>(alloc: Global, image: &Image, text: &[u8], sink: &mut S) -> Status
    requires { length text.now < 2 ^ 32 }
    ensures { Settles (OfText image.now text.now)
        (S.shows sink.old) (S.shows sink.new) result }
{
    let rules = match read(alloc, text, image) {
        Ok(rules) => rules,
        Err(fault) => return refuse_policy(fault, sink),
    };
    match denials_of(alloc, &rules, image) {
        Ok(lines) => write_verdict(lines.as_bytes(), sink),
        Err(_) => Status::NoMemory,
    }
}
