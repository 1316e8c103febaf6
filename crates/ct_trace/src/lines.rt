//! The lines of a run, made without taking memory.

ghost use Rattle.std.specs.Prelude.{◌≡◌, ◌+◌, ◌*◌, ◌≤◌, ◌<◌, ◌++◌, ◌∷◌, [], length, decimal};
ghost use Rattle.def_trace.specs.Trace as spec;

use crate::numbers::{Line, add_after, add_hexadecimal, add_number, value_digits};
use ct_entry::{Act, Deed, End, Happened, Owned, Totals};

/// The step, the deed's word, the thread and the actor.
fn add_who(line: &mut Line, step: u32, word: &str, thread: u32, actor: u32)
    requires { length line.old.bytes + length word.now + 32 ≤ 192 }
    ensures bytes { line.new.bytes ≡ line.old.bytes ++ spec.who step word.now thread actor }
    ensures size { length line.new.bytes ≤ length line.old.bytes + length word.now + 32 }
{
    add_number(line, step);
    add_after(line, word, thread);
    add_after(line, " c", actor);
}

/// Who, and by which entry.
fn add_by_entry(line: &mut Line, step: u32, word: &str, deed: &Deed)
    requires { length line.old.bytes + length word.now + 44 ≤ 192 }
    ensures bytes { line.new.bytes ≡ line.old.bytes ++ spec.by_entry step word.now deed.now }
    ensures size { length line.new.bytes ≤ length line.old.bytes + length word.now + 44 }
{
    add_who(line, step, word, deed.thread, deed.actor);
    add_after(line, " e", deed.entry);
}

/// An access of a device.
fn add_access(line: &mut Line, address: u32, width: u32, value: u64)
    requires { length line.old.bytes + 37 ≤ 192 }
    ensures bytes { line.new.bytes ≡ line.old.bytes ++ spec.access_text address width value }
    ensures size { length line.new.bytes ≤ length line.old.bytes + 37 }
{
    add_hexadecimal(line, 8, address as u64);
    add_after(line, " ", width);
    add_hexadecimal(line, value_digits(width), value);
}

/// The length of an object, and its quota's charges.
fn add_sizes(line: &mut Line, size: u32, live: u32)
    requires { length line.old.bytes + 22 ≤ 192 }
    ensures bytes { line.new.bytes ≡ line.old.bytes ++ spec.sizes_text size live }
    ensures size { length line.new.bytes ≤ length line.old.bytes + 22 }
{
    add_after(line, " ", size);
    add_after(line, " ", live);
}

/// An object of the heap, and its quota's charges.
fn add_object(line: &mut Line, number: u32, base: u32, size: u32, live: u32)
    requires { length line.old.bytes + 43 ≤ 192 }
    ensures bytes { line.new.bytes ≡ line.old.bytes ++ spec.object_text number base size live }
    ensures size { length line.new.bytes ≤ length line.old.bytes + 43 }
{
    add_after(line, " n", number);
    add_hexadecimal(line, 8, base as u64);
    add_sizes(line, size, live);
}

fn add_trap(line: &mut Line, cause: u32, code: u32, register: u32)
    requires { length line.old.bytes + 33 ≤ 192 }
    ensures bytes { line.new.bytes ≡ line.old.bytes ++ spec.trap_text cause code register }
    ensures size { length line.new.bytes ≤ length line.old.bytes + 33 }
{
    add_after(line, " ", cause);
    add_after(line, " ", code);
    add_after(line, " ", register);
}

/// What a deed did, without the line's end.
fn add_act(line: &mut Line, step: u32, deed: &Deed)
    requires { length line.old.bytes + 99 ≤ 192 }
    ensures bytes { line.new.bytes ≡ line.old.bytes ++ spec.act_text step deed.now deed.now.act }
    ensures size { length line.new.bytes ≤ length line.old.bytes + 99 }
{
    match deed.act {
        Act::Call { export } => {
            add_by_entry(line, step, " call t", deed);
            add_after(line, " e", export);
        }
        Act::Load {
            address,
            width,
            value,
        } => {
            add_by_entry(line, step, " load t", deed);
            add_access(line, address, width, value);
        }
        Act::Store {
            address,
            width,
            value,
        } => {
            add_by_entry(line, step, " store t", deed);
            add_access(line, address, width, value);
        }
        Act::Allocate {
            number,
            base,
            length,
            live,
        } => {
            add_by_entry(line, step, " allocate t", deed);
            add_object(line, number, base, length, live);
        }
        Act::Free {
            number,
            base,
            length,
            live,
        } => {
            add_by_entry(line, step, " free t", deed);
            add_object(line, number, base, length, live);
        }
        Act::Trap {
            cause,
            code,
            register,
        } => {
            add_who(line, step, " trap t", deed.thread, deed.actor);
            add_trap(line, cause, code, register);
        }
    }
}

/// The line of a deed, where there was one.
#[tactic(auto, unfolding(def_trace::specs::Trace::deed_line))]
fn add_deed(line: &mut Line, step: u32, deed: &Option<Deed>)
    requires { length line.old.bytes + 100 ≤ 192 }
    ensures bytes { line.new.bytes ≡ line.old.bytes ++ spec.deed_part step deed.now }
    ensures size { length line.new.bytes ≤ length line.old.bytes + 100 }
{
    match deed {
        Some(deed) => {
            add_act(line, step, deed);
            line.push('\n');
        }
        None => {}
    }
}

/// The line of a span with interrupts off, where one begins.
#[tactic(auto, unfolding(def_trace::specs::Trace::off_line))]
fn add_off(line: &mut Line, step: u32, off: &Option<Owned>)
    requires { length line.old.bytes + 51 ≤ 192 }
    ensures bytes { line.new.bytes ≡ line.old.bytes ++ spec.off_part step off.now }
    ensures size { length line.new.bytes ≤ length line.old.bytes + 51 }
{
    match off {
        Some(owned) => {
            add_who(line, step, " off t", owned.thread, owned.actor);
            add_after(line, " e", owned.export);
            line.push('\n');
        }
        None => {}
    }
}

/// The lines of what a step did, the step counted from 1: none, one or two.
#[tactic(auto, unfolding(def_trace::specs::Trace::trace_line))]
pub fn line(happened: &Happened, step: u32) -> Line
    ensures { result.bytes ≡ spec.trace_line step happened.now }
{
    let mut line = Line::new();
    add_deed(&mut line, step, &happened.deed);
    add_off(&mut line, step, &happened.off);
    line
}

fn end_of(end: End) -> &'static str
    ensures text { result.now ≡ spec.end_text end }
    ensures size { length result.now ≤ 19 }
{
    match end {
        End::Limit => "end limit steps ",
        End::Finished => "end finished steps ",
        End::Idle => "end idle steps ",
    }
}

fn add_events(line: &mut Line, totals: &Totals)
    requires { length line.old.bytes + 46 ≤ 192 }
    ensures bytes { line.new.bytes ≡ line.old.bytes ++ spec.events_text totals.now }
    ensures size { length line.new.bytes ≤ length line.old.bytes + 46 }
{
    add_after(line, end_of(totals.end), totals.steps);
    add_after(line, " ticks ", totals.ticks);
}

fn add_rest(line: &mut Line, totals: &Totals)
    requires { length line.old.bytes + 57 ≤ 192 }
    ensures bytes { line.new.bytes ≡ line.old.bytes ++ spec.rest_text totals.now }
    ensures size { length line.new.bytes ≤ length line.old.bytes + 57 }
{
    add_after(line, " allocations ", totals.allocations);
    add_after(line, " frees ", totals.frees);
    add_after(line, " traps ", totals.traps);
}

fn add_deeds(line: &mut Line, totals: &Totals)
    requires { length line.old.bytes + 93 ≤ 192 }
    ensures bytes { line.new.bytes ≡ line.old.bytes ++ spec.deeds_text totals.now }
    ensures size { length line.new.bytes ≤ length line.old.bytes + 93 }
{
    add_after(line, " calls ", totals.calls);
    add_after(line, " devices ", totals.devices);
    add_rest(line, totals);
}

/// The summary of a run.
#[tactic(auto, unfolding(def_trace::specs::Trace::summary_line))]
pub fn summary(totals: &Totals) -> Line
    ensures { result.bytes ≡ spec.summary_line totals.now }
{
    let mut line = Line::new();
    add_events(&mut line, totals);
    add_deeds(&mut line, totals);
    line.push('\n');
    line
}
