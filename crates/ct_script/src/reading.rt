//! The lines of a text, one after another.

ghost use Rattle.std.specs.Prelude.{ℕ, ◌≡◌, ◌+◌, ◌<◌, ◌≤◌, ◌^◌, length, [], MatchResult};
ghost use Rattle.def_script.specs.Script.{IsScriptCause, input_device_named, given_at, is_named};
ghost use Rattle.ct_script.specs.Lines.{AreLines, Going, Takes, IsRefusal, dues_of, last_of, with_line};

use crate::fields::first_line;
use crate::finding::{first_from, gap_from};
use ct_entry::Device;
use def_script::{Given, ScriptFault};
use std::alloc::Global;
use std::marker::Model;

/// The lines so far: a step and what is given before it, place by place.
#[derive(Drop)]
pub(crate) struct Lines {
    pub(crate) steps: Vec<u32>,
    pub(crate) givens: Vec<Given>,
}

impl Model for Lines {
    ghost use Rattle.ct_script.specs.Lines.{LinesRow};

    ghost Value = { LinesRow };

    ghost view = { λ l. record { steps = l.steps.items; givens = l.givens.items } };
}

impl Lines {
    /// What is given before a step.
    pub(crate) fn given_at(&self, step: u32) -> &[Given]
        requires { AreLines self.now }
        ensures { result.now ≡ given_at (dues_of self.now.steps self.now.givens) step }
    {
        let from = first_from(&self.steps, step as u64);
        let to = first_from(&self.steps, step as u64 + 1);
        &self.givens[from..to]
    }

    /// How many steps from this one on come before the next before which something is given, and `most` at most.
    pub(crate) fn bare_steps(&self, from: u32, most: u32) -> u32
        requires { AreLines self.now }
        ensures most { result ≤ most }
        ensures none { (k : ℕ) → k < result
            → given_at (dues_of self.now.steps self.now.givens) (from + k) ≡ [] }
        ensures next { result < most
            → given_at (dues_of self.now.steps self.now.givens) (from + result) ≡ [] → ⊥ }
    {
        gap_from(&self.steps, from, most)
    }
}

/// Whether a device has this name, and bytes come to it.
fn is_named(device: &Device, name: &[u8]) -> bool
    ensures { result ≡ is_named name.now device.now }
{
    device.kind.takes_bytes() && device.name.as_bytes() == name
}

/// The device of this name to which bytes come.
fn find_device(devices: &[Device], name: &[u8]) -> Option<u32>
    requires { length devices.now < 2 ^ 32 }
    ensures { result ≡ input_device_named devices.now name.now }
{
    for (index, device) in devices.iter().enumerate() {
        if is_named(device, name) {
            return Some(index as u32);
        }
    }
    None
}

/// A fault of the line after these.
fn fault(lines: &Lines, number: u32) -> ScriptFault
    requires { length lines.now.steps + 1 < 2 ^ 32 }
    ensures { result ≡ ScriptFault.At number (length lines.now.steps + 1) }
{
    ScriptFault::At {
        number,
        line: lines.steps.len() as u32 + 1,
    }
}

/// The step of the last line so far, 0 where there is none.
fn last_step(lines: &Lines) -> u32
    ensures { result ≡ last_of lines.now.steps }
{
    match lines.steps.last() {
        Some(step) => *step,
        None => 0,
    }
}

/// Keeps a line that breaks no rule.
fn keep(lines: &mut Lines, step: u32, given: Given) -> Result<(), ScriptFault>
    ensures { MatchResult result
        (λ _. lines.new ≡ with_line lines.old step given)
        (λ fault. fault ≡ ScriptFault.NoMemory) }
{
    match lines.steps.push(step) {
        Ok(()) => {}
        Err(_) => return Err(ScriptFault::NoMemory),
    }
    match lines.givens.push(given) {
        Ok(()) => Ok(()),
        Err(_) => Err(ScriptFault::NoMemory),
    }
}

/// Keeps the line that begins what is left, and gives what follows it.
fn take_line<'a>(
    lines: &mut Lines,
    devices: &[Device],
    left: &'a [u8],
) -> Result<&'a [u8], ScriptFault>
    requires some { 0 < length left.now }
    requires short { length lines.old.steps + length left.now < 2 ^ 32 }
    requires devices { length devices.now < 2 ^ 32 }
    ensures { MatchResult result
        (λ rest. Takes devices.now lines.old lines.new left.now rest.now)
        (λ fault. IsRefusal devices.now lines.old left.now fault) }
{
    let line = match first_line(left) {
        Some(line) => line,
        None => return Err(fault(lines, 1)),
    };
    if line.step < last_step(lines) {
        return Err(fault(lines, 2));
    }
    let device = match find_device(devices, line.name) {
        Some(device) => device,
        None => return Err(fault(lines, 3)),
    };
    let given = Given {
        device,
        byte: line.byte,
    };
    match keep(lines, line.step, given) {
        Ok(()) => Ok(line.rest),
        Err(fault) => Err(fault),
    }
}

/// All lines of a text.
pub(crate) fn read_lines(
    alloc: Global,
    bytes: &[u8],
    devices: &[Device],
) -> Result<Lines, ScriptFault>
    requires bytes { length bytes.now < 2 ^ 32 }
    requires devices { length devices.now < 2 ^ 32 }
    ensures { MatchResult result (λ l. Going devices.now bytes.now l [])
        (λ fault. IsScriptCause devices.now bytes.now fault) }
{
    let mut lines = Lines {
        steps: Vec::new(alloc),
        givens: Vec::new(alloc),
    };
    let mut left = bytes;
    while !left.is_empty() {
        match take_line(&mut lines, devices, left) {
            Ok(rest) => left = rest,
            Err(fault) => return Err(fault),
        }
    }
    Ok(lines)
}
