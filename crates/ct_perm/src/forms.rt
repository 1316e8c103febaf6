//! The six forms, in order of preference.

ghost use Rattle.std.specs.Prelude.{◌&&◌, ◌≡◌, bit_and, ℕ};
ghost use Rattle.ct_perm.specs.Named.{written};
ghost use Rattle.def_words.specs.Permissions.{bit, form_of, holds, set_where};

use crate::Perms;
use bitflags::Flags;
use def_profile::rights::{EX, GL, LD, LG, LM, MC, SD, SE, SL, SR, U0, US};

/// What the executable form can hold.
const EXECUTABLE: u16 = (GL + LG + LM + LD + MC + SR + EX) as u16;
/// What the read-write form can hold.
const READ_WRITE: u16 = (GL + LG + SD + LM + SL + LD + MC) as u16;
/// What the read-only form can hold.
const READ_ONLY: u16 = (GL + LG + LM + LD + MC) as u16;
/// What the write-only form can hold.
const WRITE_ONLY: u16 = (GL + SD + MC) as u16;
/// What the plain form can hold.
const PLAIN: u16 = (GL + SD + LD) as u16;
/// What the sealing form can hold.
const SEALING: u16 = (GL + US + SE + U0) as u16;

/// A form of five bits.
#[derive(Clone, Copy, PartialEq, Eq, Drop)]
pub(crate) enum Form {
    /// 01 SR LM LG.
    Executable,
    /// 11 SL LM LG.
    ReadWrite,
    /// 101 LM LG.
    ReadOnly,
    /// 10000.
    WriteOnly,
    /// 100 LD SD.
    Plain,
    /// 00 U0 SE US.
    Sealing,
}

/// The first form whose condition holds of a set.
#[tactic(auto, unfolding(def_words::specs::Permissions::form_of), using(crate::proofs::Tests::each_flag))]
pub(crate) fn form_of(set: Perms) -> Form
    ensures { written result ≡ form_of set.0 }
{
    match (
        set.contains(Perms::MC),
        set.contains(Perms::LD),
        set.contains(Perms::SD),
        set.contains(Perms::EX),
    ) {
        (true, true, _, true) => Form::Executable,
        (true, true, true, false) => Form::ReadWrite,
        (true, true, false, false) => Form::ReadOnly,
        (true, false, true, _) => Form::WriteOnly,
        (true, false, false, _) => Form::Sealing,
        (false, true, _, _) => Form::Plain,
        (false, false, true, _) => Form::Plain,
        (false, false, false, _) => Form::Sealing,
    }
}

impl Form {
    /// All that the form can hold.
    pub fn held(self) -> u16
        ensures { (set : ℕ)
            → bit_and set result ≡ set_where (λ p. bit set p && holds (written self) p) }
    {
        match self {
            Form::Executable => EXECUTABLE,
            Form::ReadWrite => READ_WRITE,
            Form::ReadOnly => READ_ONLY,
            Form::WriteOnly => WRITE_ONLY,
            Form::Plain => PLAIN,
            Form::Sealing => SEALING,
        }
    }
}
