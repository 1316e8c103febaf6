//! A script: what is given, in order, each with the step before which it comes.

ghost use Rattle.std.specs.Prelude.{ℕ, ◌≡◌, ◌+◌, ◌<◌, ◌≤◌, ◌^◌, [], length, MatchResult};
ghost use Rattle.def_script.specs.Script.{ReadsAsScript, IsScriptCause, given_at};

use crate::reading::{Lines, read_lines};
use ct_entry::Devices;
use def_script::{Given, ScriptFault};
use std::alloc::Global;
use std::marker::Model;

/// Bytes that come to devices, each before a step, in the order of the text.
#[derive(Drop)]
pub struct Script {
    lines: Lines,
}

impl Model for Script {
    ghost use Rattle.std.specs.Prelude.{List};
    ghost use Rattle.def_script.specs.Script.{Due};
    ghost use Rattle.ct_script.specs.Lines.{dues_of, AreLines};

    ghost Value = { List Due };

    ghost view = { λ s. dues_of s.lines.steps s.lines.givens };

    ghost invariant = { λ s. AreLines s.lines };
}

/// Reads a script. The answer `At` names the least line that breaks a rule, and on it the least rule;
/// `NoMemory` wants memory.
pub fn read(alloc: Global, bytes: &[u8], devices: &Devices) -> Result<Script, ScriptFault>
    requires bytes { length bytes.now < 2 ^ 32 }
    requires devices { length devices.now < 2 ^ 32 }
    ensures { MatchResult result (λ s. ReadsAsScript devices.now bytes.now s)
        (λ fault. IsScriptCause devices.now bytes.now fault) }
{
    let lines = read_lines(alloc, bytes, devices.rows.as_slice())?;
    Ok(Script { lines })
}

impl Script {
    /// No bytes at all. It takes no memory.
    pub fn empty(alloc: Global) -> Script
        ensures { result ≡ [] }
    {
        let lines = Lines {
            steps: Vec::new(alloc),
            givens: Vec::new(alloc),
        };
        Script { lines }
    }

    /// The bytes that come before a step, in the script's order.
    pub fn at(&self, step: u32) -> &[Given]
        ensures { result.now ≡ given_at self.now step }
    {
        self.lines.given_at(step)
    }

    /// How many steps from this one on come before the next before which a byte comes, and `most` at most.
    pub fn bare_steps(&self, from: u32, most: u32) -> u32
        ensures most { result ≤ most }
        ensures none { (k : ℕ) → k < result → given_at self.now (from + k) ≡ [] }
        ensures next { result < most → given_at self.now (from + result) ≡ [] → ⊥ }
    {
        self.lines.bare_steps(from, most)
    }
}
