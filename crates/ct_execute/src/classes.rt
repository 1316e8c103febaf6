//! An instruction carried out on the running thread, RAM and the devices.

ghost use Rattle.std.specs.Prelude.{ℕ, ◌≡◌, ◌<◌, Some, option_map, true, false};
ghost use Rattle.def_instr.specs.Shapes.{is_access, is_capability, is_integer, is_jump, is_system};
ghost use Rattle.def_instr.specs.Table.{InRange};
ghost use Rattle.def_step.specs.declared.Class.TheVariants as kinds;
ghost use Rattle.def_step.specs.Devices.{DeviceStates};
ghost use Rattle.def_step.specs.Operands.{class_of};
ghost use Rattle.ct_engine.specs.Seen.{thread, advanced};
ghost use Rattle.def_reach.specs.Roots.{root_of};
ghost use Rattle.def_step.specs.Operands.{operands_of};
ghost use Rattle.def_machine.specs.State.{register};
ghost use Rattle.ct_execute.specs.Deciding.{act_by, HasOperands, IsCarriedOut, Stays};
ghost use Rattle.ct_execute.specs.Opening.{MayGo};

use crate::ran::{ActBy, Ran};
use ct_alu::alu;
use ct_bus::Bus;
use ct_cap::{Live, Trap, raise};
use ct_capstep::capstep;
use ct_decode::{class_of, operands_of};
use ct_engine::Engine;
use ct_entry::{Act, Entries};
use ct_flow::flow;
use ct_isa::shape;
use ct_mem::Memory;
use ct_switch::called;
use def_instr::Instr;
use def_profile::traps::{BREAKPOINT, ENVIRONMENT_CALL, PCC_REGISTER, SYSTEM_REGISTER_CODE};
use def_step::{Class, Operands};

/// Execution goes on after the instruction, and a register gets a value.
fn advance<M: Memory + Drop>(engine: &mut Engine<M>, t: u32, to: u32, value: Live)
    requires runs { engine.old.state.running ≡ Some t }
    requires to { to < 16 }
    ensures { engine.new ≡ advanced engine.old t to value }
{
    let mut pcc = engine.pcc(t);
    raise(&mut pcc, 4);
    let posture = engine.posture(t);
    engine.jump_to(t, pcc, posture, to, value);
}

/// What an instruction did, by the entry of the capability that it used.
fn done_by(act: Option<Act>, entry: u32) -> Option<ActBy>
    ensures { result ≡ option_map (act_by entry) act }
{
    match act {
        Some(act) => Some(ActBy { act, entry }),
        None => None,
    }
}

/// A branch or a jump. A sentry that holds interrupts off does so by the export that its root names.
fn execute_jump<M: Memory + Drop>(
    instruction: Instr,
    operands: Operands,
    entries: &Entries,
    engine: &mut Engine<M>,
    t: u32,
) -> Ran
    requires runs { engine.old.state.running ≡ Some t }
    requires has { HasOperands instruction operands }
    requires class { class_of instruction ≡ kinds.Jump }
    requires jump { is_jump instruction ≡ true }
    ensures is { (k : DeviceStates) (time : ℕ) → IsCarriedOut
        (root_of entries.now
        (register (thread engine.old t) (operands_of instruction).first).shadow.root).of
        t time instruction engine.old k engine.new k result }
    ensures stays { Stays engine.old engine.new }
{
    let x = engine.register(t, operands.first);
    let y = engine.register(t, operands.second);
    let named = called(entries, x.cap.shadow.root);
    match flow(instruction, x, y, engine.pcc(t), engine.posture(t), named) {
        Ok(went) => {
            let link = went.link.unwrap_or(Live::integer(0));
            engine.jump_to(t, went.pcc, went.posture, operands.to, link);
            Ran::Went { done: None }
        }
        Err(trap) => Ran::Trapped { trap },
    }
}

/// A load or a store.
fn execute_access<M: Memory + Drop>(
    instruction: Instr,
    operands: Operands,
    engine: &mut Engine<M>,
    t: u32,
    bus: &mut Bus,
    heap: u32,
    time: u64,
) -> Ran
    requires may { MayGo engine.old t heap }
    requires has { HasOperands instruction operands }
    requires class { class_of instruction ≡ kinds.Access }
    requires access { is_access instruction ≡ true }
    ensures is { (named : ℕ) → IsCarriedOut named t time instruction
        engine.old bus.old engine.new bus.new result }
    ensures stays { Stays engine.old engine.new }
    ensures bases { bus.new.bases ≡ bus.old.bases }
{
    let x = engine.register(t, operands.first);
    let y = engine.register(t, operands.second);
    match engine.loadstore(instruction, x, y, heap, bus, time) {
        Ok(moved) => {
            let value = moved.value.unwrap_or(Live::integer(0));
            advance(engine, t, operands.to, value);
            Ran::Went {
                done: done_by(moved.device, x.cap.shadow.root),
            }
        }
        Err(trap) => Ran::Trapped { trap },
    }
}

/// An instruction that gives a register a value and touches nothing else, or traps.
fn execute_value<M: Memory + Drop>(
    class: Class,
    instruction: Instr,
    operands: Operands,
    engine: &mut Engine<M>,
    t: u32,
) -> Ran
    requires runs { engine.old.state.running ≡ Some t }
    requires has { HasOperands instruction operands }
    requires is { class ≡ class_of instruction }
    requires jump { class ≡ kinds.Jump → ⊥ }
    requires access { class ≡ kinds.Access → ⊥ }
    requires integer { class ≡ kinds.Integer → is_integer instruction ≡ true }
    requires capability { class ≡ kinds.Capability
        → (is_capability instruction ≡ true) × (is_system instruction ≡ false) }
    ensures is { (named : ℕ) (k : DeviceStates) (time : ℕ) → IsCarriedOut named t time instruction
        engine.old k engine.new k result }
    ensures stays { Stays engine.old engine.new }
{
    let x = engine.register(t, operands.first);
    let y = engine.register(t, operands.second);
    let went = Ran::Went { done: None };
    match class {
        Class::Integer => {
            let value = alu(instruction, x.address(), y.address());
            advance(engine, t, operands.to, Live::integer(value));
            went
        }
        Class::Capability => match capstep(instruction, x, y, engine.pcc(t)) {
            Ok(value) => {
                advance(engine, t, operands.to, value);
                went
            }
            Err(trap) => Ran::Trapped { trap },
        },
        Class::Fence => {
            advance(engine, t, 0, Live::integer(0));
            went
        }
        Class::System => Ran::Trapped {
            trap: Trap::capability(SYSTEM_REGISTER_CODE, PCC_REGISTER),
        },
        Class::Call => Ran::Trapped {
            trap: Trap::plain(ENVIRONMENT_CALL),
        },
        // Only a break is left.
        _ => Ran::Trapped {
            trap: Trap::plain(BREAKPOINT),
        },
    }
}

/// An instruction, whole.
pub(crate) fn execute_instruction<M: Memory + Drop>(
    instruction: Instr,
    entries: &Entries,
    engine: &mut Engine<M>,
    t: u32,
    bus: &mut Bus,
    heap: u32,
    time: u64,
) -> Ran
    requires may { MayGo engine.old t heap }
    requires ranged { InRange instruction }
    ensures is { IsCarriedOut
        (root_of entries.now
        (register (thread engine.old t) (operands_of instruction).first).shadow.root).of
        t time instruction engine.old bus.old engine.new bus.new result }
    ensures stays { Stays engine.old engine.new }
    ensures bases { bus.new.bases ≡ bus.old.bases }
{
    let shape = shape(instruction);
    let class = class_of(shape);
    let operands = operands_of(shape);
    match class {
        Class::Jump => execute_jump(instruction, operands, entries, engine, t),
        Class::Access => execute_access(instruction, operands, engine, t, bus, heap, time),
        _ => execute_value(class, instruction, operands, engine, t),
    }
}
