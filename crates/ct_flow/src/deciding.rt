//! Where execution goes on.

ghost use Rattle.std.specs.Prelude.{IsTrue, ◌≡◌, ◌%◌, ◌^◌};
ghost use Rattle.def_instr.specs.Shapes.{is_jump};
ghost use Rattle.def_step.specs.Jumps.{flow_result, jump_target, jumped_to, passed_over, branched};

use crate::branches::takes;
use crate::outcome::Flow;
use crate::registers::register_jump;
use ct_cap::{Live, Posture, Trap, link, raise, turn};
use def_instr::Instr;
use def_profile::traps::MISALIGNED_FETCH;

/// The program counter goes to a target, by the address rule.
fn jump_to(pcc: Live, posture: Posture, target: u32, link: Option<Live>) -> Result<Flow, Trap>
    ensures { result ≡ jumped_to pcc posture target link }
{
    if target % 4 != 0 {
        return Err(Trap::plain(MISALIGNED_FETCH));
    }
    let mut next = pcc;
    turn(&mut next, target);
    Ok(Flow {
        link,
        pcc: next,
        posture,
    })
}

/// A branch by an offset, taken or not.
fn branch(taken: bool, pcc: Live, posture: Posture, offset: u32) -> Result<Flow, Trap>
    ensures { result ≡ branched taken pcc posture offset }
{
    if taken {
        return jump_to(pcc, posture, pcc.address().wrapping_add(offset), None);
    }
    pass_over(pcc, posture)
}

/// Execution goes on after the instruction.
fn pass_over(pcc: Live, posture: Posture) -> Result<Flow, Trap>
    ensures { result ≡ passed_over pcc posture }
{
    let mut next = pcc;
    raise(&mut next, 4);
    Ok(Flow {
        link: None,
        pcc: next,
        posture,
    })
}

/// A branch, `jal` or register jump from `pcc` under posture `posture`. x and y are the values of
/// rs1 and rs2; `named` is the export that x's root entry names, or 0.
///
/// A trap where a check fails: the first.
#[tactic(auto, unfolding(def_step::specs::Jumps::flow_result))]
pub fn flow(
    instruction: Instr,
    x: Live,
    y: Live,
    pcc: Live,
    posture: Posture,
    named: u32,
) -> Result<Flow, Trap>
    requires { IsTrue (is_jump instruction) }
    ensures { result ≡ flow_result instruction x y pcc posture named }
{
    match instruction {
        Instr::Jal { offset, .. } => jump_to(
            pcc,
            posture,
            pcc.address().wrapping_add(offset),
            Some(link(pcc, posture)),
        ),
        Instr::CJalr { rd, rs1, immediate } => register_jump(
            rd, rs1, x, immediate, pcc, posture, named,
        ),
        Instr::Beq { offset, .. }
        | Instr::Bne { offset, .. }
        | Instr::Blt { offset, .. }
        | Instr::Bge { offset, .. }
        | Instr::Bltu { offset, .. }
        | Instr::Bgeu { offset, .. } => branch(
            takes(instruction, x.address(), y.address()),
            pcc,
            posture,
            offset,
        ),
        _ => unreachable!(),
    }
}
