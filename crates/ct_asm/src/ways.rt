//! Ways from one place to another, as the pieces that instructions hold.

ghost use Rattle.std.specs.Prelude.{◌≡◌, ◌<◌, ◌-◌, ◌^◌, ◌%◌, ◌==◌, ◌&&◌, true, None};
ghost use Rattle.def_instr.specs.Table.{IsSigned, IsOffset};
ghost use Rattle.def_source.specs.Source as source;
ghost use Rattle.def_source.specs.declared.reaches.TheConstants.{BRANCH_REACH, JUMP_REACH};
ghost use Rattle.def_object.specs.Object as object;
ghost use Rattle.ct_source.specs.Views.{target_view};
ghost use Rattle.ct_asm.specs.Labels.{label_named};

use crate::labels::Labels;
use crate::places::number_word;
use ct_bits::extended;
use def_object::Label;
use def_source::parts::{Number, Target};

/// The 32-bit word of the way from one place to another.
fn way(at: u128, to: u128) -> u32
    ensures { result ≡ object.way at to }
{
    ((to % (1 << 32) + ((1 << 32) - at % (1 << 32))) % (1 << 32)) as u32
}

/// A branch's offset as it is written.
#[tactic(auto, using(crate::proofs::Reach::branch_word))]
fn branch_number(number: Number) -> u32
    requires { (source.within BRANCH_REACH (BRANCH_REACH - 2) number
        && (number.magnitude % 2 == 0))
        ≡ true }
    ensures value { result ≡ object.number_word number }
    ensures range { IsOffset 13 result }
{
    number_word(number)
}

/// A jump's offset as it is written.
#[tactic(auto, using(crate::proofs::Reach::jump_word))]
fn jump_number(number: Number) -> u32
    requires { (source.within JUMP_REACH (JUMP_REACH - 2) number && (number.magnitude % 2 == 0))
        ≡ true }
    ensures value { result ≡ object.number_word number }
    ensures range { IsOffset 21 result }
{
    number_word(number)
}

/// The way of a branch to a label in its reach.
#[tactic(auto, using(crate::proofs::Reach::near_branch))]
fn branch_way(at: u128, to: u128) -> u32
    requires { object.is_near BRANCH_REACH at to ≡ true }
    ensures value { result ≡ object.way at to }
    ensures range { IsOffset 13 result }
{
    way(at, to)
}

/// The way of a jump to a label in its reach.
#[tactic(auto, using(crate::proofs::Reach::near_jump))]
fn jump_way(at: u128, to: u128) -> u32
    requires { object.is_near JUMP_REACH at to ≡ true }
    ensures value { result ≡ object.way at to }
    ensures range { IsOffset 21 result }
{
    way(at, to)
}

/// The upper twenty bits of a way, rounded toward zero.
pub(crate) fn high_piece(at: u128, to: u128) -> u32
    ensures value { result ≡ object.high_piece at to }
    ensures range { result < 2 ^ 20 }
{
    if to < at {
        let back = (at - to) / (1 << 11) % (1 << 20);
        return (((1 << 20) - back) % (1 << 20)) as u32;
    }
    ((to - at) / (1 << 11) % (1 << 20)) as u32
}

/// The rest of a way, with its sign.
pub(crate) fn low_piece(at: u128, to: u128) -> u32
    ensures value { result ≡ object.low_piece at to }
    ensures range { IsSigned 12 result }
{
    if to < at {
        let back = (at - to) % (1 << 11);
        return (((1 << 32) - back) % (1 << 32)) as u32;
    }
    ((to - at) % (1 << 11)) as u32
}

/// The upper bits of a word, so that a signed rest of twelve bits stays.
pub(crate) fn upper_part(word: u32) -> u32
    ensures value { result ≡ object.upper_part word }
    ensures range { result < 2 ^ 20 }
{
    ((word as u64 + (1 << 11)) / (1 << 12) % (1 << 20)) as u32
}

/// The signed rest of a word.
pub(crate) fn rest_part(word: u32) -> u32
    ensures value { result ≡ object.rest_part word }
    ensures range { IsSigned 12 result }
{
    extended(12, word % (1 << 12))
}

/// Where a label stands in its section.
pub(crate) fn label_offset(label: Option<Label>) -> u128
    ensures { result ≡ object.label_offset label }
{
    match label {
        Some(l) => l.offset,
        None => 0,
    }
}

/// The way of a branch that has no fault.
pub(crate) fn branch_target(labels: &Labels, at: u128, target: Target<&[u8]>) -> u32
    requires fit { source.fits_target BRANCH_REACH (target_view target) ≡ true }
    requires found { object.target_fault (λ n. label_named n labels.now) BRANCH_REACH at
        (target_view target)
        ≡ None }
    ensures value { result
        ≡ object.target_word (λ n. label_named n labels.now) at (target_view target.entry) }
    ensures range { IsOffset 13 result }
{
    match target {
        Target::Label(name) => match labels.get(name) {
            Some(l) => branch_way(at, l.offset),
            None => way(at, 0),
        },
        Target::Offset(number) => branch_number(number),
    }
}

/// The way of a jump that has no fault.
pub(crate) fn jump_target(labels: &Labels, at: u128, target: Target<&[u8]>) -> u32
    requires fit { source.fits_target JUMP_REACH (target_view target) ≡ true }
    requires found { object.target_fault (λ n. label_named n labels.now) JUMP_REACH at
        (target_view target)
        ≡ None }
    ensures value { result
        ≡ object.target_word (λ n. label_named n labels.now) at (target_view target.entry) }
    ensures range { IsOffset 21 result }
{
    match target {
        Target::Label(name) => match labels.get(name) {
            Some(l) => jump_way(at, l.offset),
            None => way(at, 0),
        },
        Target::Offset(number) => jump_number(number),
    }
}
