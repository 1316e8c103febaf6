//! What a branch or jump comes to.

use ct_cap::{Live, Posture};
use std::marker::Model;

/// Where a branch or jump goes: the link that it leaves, if any, the next program counter
/// capability, and the posture.
#[derive(Clone, Copy)]
pub struct Flow {
    pub link: Option<Live>,
    pub pcc: Live,
    pub posture: Posture,
}

impl Model for Flow {
    ghost use Rattle.def_step.specs.Jumps.{Flowed};
    ghost use Rattle.std.specs.Prelude.{refl};

    ghost Value = { Flowed };

    ghost view = { λ f. record { link = f.link; pcc = f.pcc; posture = f.posture } };

    ghost inverse = { λ f. record { link = f.link; pcc = f.pcc; posture = f.posture } };

    ghost inverse_ok = { λ f h. refl };
}
