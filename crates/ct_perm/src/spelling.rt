//! Sets as six bits.

ghost use Rattle.std.specs.Prelude.{◌+◌, ◌<◌, ◌≡◌, ◌^◌, if◌then◌else◌};
ghost use Rattle.def_words.specs.Permissions.{packed, unpacked};

use crate::Perms;
use crate::forms::{Form, form_of};
use bitflags::Flags;

/// The six bits of a set's normal: GL, then the form with its bits.
#[tactic(auto, unfolding(def_words::specs::Permissions::packed), using(crate::proofs::Tests::each_flag))]
pub(crate) fn packed(set: Perms) -> u8
    ensures value { result ≡ packed set.0 }
    ensures six { result < 64 }
{
    let low = match form_of(set) {
        Form::Executable => 8
            + three(
                set.contains(Perms::SR),
                set.contains(Perms::LM),
                set.contains(Perms::LG),
            ),
        Form::ReadWrite => 24
            + three(
                set.contains(Perms::SL),
                set.contains(Perms::LM),
                set.contains(Perms::LG),
            ),
        Form::ReadOnly => 20 + three(false, set.contains(Perms::LM), set.contains(Perms::LG)),
        Form::WriteOnly => 16,
        Form::Plain => 16 + three(false, set.contains(Perms::LD), set.contains(Perms::SD)),
        Form::Sealing => three(
            set.contains(Perms::U0),
            set.contains(Perms::SE),
            set.contains(Perms::US),
        ),
    };
    flag(set.contains(Perms::GL), 32) + low
}

/// A bit's value where it is set.
fn flag(on: bool, value: u8) -> u8
    ensures { result ≡ (if on then value else 0) }
{
    if on { value } else { 0 }
}

/// Three bits, the highest first.
fn three(high: bool, middle: bool, low: bool) -> u8
    ensures value { result
        ≡ (if high then 4 else 0) + ((if middle then 2 else 0) + (if low then 1 else 0)) }
    ensures small { result < 8 }
{
    flag(high, 4) + flag(middle, 2) + flag(low, 1)
}

/// The set that each six bits spell, as *Permission sets* gives it: those from 32 on have GL.
const SETS: [u16; 64] = [
    0x000, 0x200, 0x400, 0x600, 0x800, 0xA00, 0xC00, 0xE00, 0x160, 0x162, 0x168, 0x16A, 0x1E0,
    0x1E2, 0x1E8, 0x1EA, 0x044, 0x004, 0x020, 0x024, 0x060, 0x062, 0x068, 0x06A, 0x064, 0x066,
    0x06C, 0x06E, 0x074, 0x076, 0x07C, 0x07E, 0x001, 0x201, 0x401, 0x601, 0x801, 0xA01, 0xC01,
    0xE01, 0x161, 0x163, 0x169, 0x16B, 0x1E1, 0x1E3, 0x1E9, 0x1EB, 0x045, 0x005, 0x021, 0x025,
    0x061, 0x063, 0x069, 0x06B, 0x065, 0x067, 0x06D, 0x06F, 0x075, 0x077, 0x07D, 0x07F,
];

/// The set that six bits spell.
pub(crate) fn told(bits: u8) -> Perms
    requires { bits < 64 }
    ensures value { result.0 ≡ unpacked bits }
    ensures small { result.0 < 2 ^ 12 }
{
    Perms(SETS[bits as usize])
}
