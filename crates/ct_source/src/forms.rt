//! The statement of a word and the tokens after it, one function for each operand form
//! (docs/use/assembler.md).

ghost use Rattle.std.specs.Prelude.{◌≡◌, option_map, true};
ghost use Rattle.def_source.specs.Source as source;
ghost use Rattle.ct_source.specs.Views.{row_view, part_view, takes_number};
ghost use Rattle.def_source.specs.declared.words.Head.TheVariants as head;
ghost use Rattle.def_source.specs.declared.parts.Part.TheVariants as part;

use crate::operands::{
    one_number, one_register, one_target, register_address, register_name, register_number,
    register_target, three_registers, two_registers, two_registers_number, two_registers_target,
};
use def_instr::shapes::{
    BranchOperation, ImmediateOperation, LoadOperation, RegisterOperation, SourceOperation,
    StoreOperation, UpperOperation,
};
use def_source::parts::{Part, Token};
use def_source::words::{Directive, Head};

/// A statement of one word.
fn alone<'a>(row: &[Token<&'a [u8]>], part: Part<&'a [u8]>) -> Option<Part<&'a [u8]>>
    ensures { option_map part_view result ≡ source.ended (row_view row.now) (part_view part.entry) }
{
    if row.is_empty() { Some(part) } else { None }
}

fn registers<'a>(operation: RegisterOperation, row: &[Token<&'a [u8]>]) -> Option<Part<&'a [u8]>>
    ensures { option_map part_view result
        ≡ source.statement_form (head.Registers operation) (row_view row.now) }
{
    let (rd, rs1, rs2) = three_registers(row)?;
    Some(Part::Registers {
        operation,
        rd,
        rs1,
        rs2,
    })
}

fn immediate<'a>(operation: ImmediateOperation, row: &[Token<&'a [u8]>]) -> Option<Part<&'a [u8]>>
    ensures { option_map part_view result
        ≡ source.statement_form (head.Immediate operation) (row_view row.now) }
{
    let (rd, rs1, number) = two_registers_number(row)?;
    Some(Part::Immediate {
        operation,
        rd,
        rs1,
        number,
    })
}

fn upper<'a>(operation: UpperOperation, row: &[Token<&'a [u8]>]) -> Option<Part<&'a [u8]>>
    ensures { option_map part_view result
        ≡ source.statement_form (head.Upper operation) (row_view row.now) }
{
    let (rd, number) = register_number(row)?;
    Some(Part::Upper {
        operation,
        rd,
        number,
    })
}

fn store<'a>(operation: StoreOperation, row: &[Token<&'a [u8]>]) -> Option<Part<&'a [u8]>>
    ensures { option_map part_view result
        ≡ source.statement_form (head.Store operation) (row_view row.now) }
{
    let (rs2, number, rs1) = register_address(row)?;
    Some(Part::Store {
        operation,
        rs2,
        number,
        rs1,
    })
}

fn branch<'a>(operation: BranchOperation, row: &[Token<&'a [u8]>]) -> Option<Part<&'a [u8]>>
    ensures { option_map part_view result
        ≡ source.statement_form (head.Branch operation) (row_view row.now) }
{
    let (rs1, rs2, target) = two_registers_target(row)?;
    Some(Part::Branch {
        operation,
        rs1,
        rs2,
        target,
    })
}

fn source<'a>(operation: SourceOperation, row: &[Token<&'a [u8]>]) -> Option<Part<&'a [u8]>>
    ensures { option_map part_view result
        ≡ source.statement_form (head.Source operation) (row_view row.now) }
{
    let (rd, rs1) = two_registers(row)?;
    Some(Part::Source { operation, rd, rs1 })
}

fn jal<'a>(row: &[Token<&'a [u8]>]) -> Option<Part<&'a [u8]>>
    ensures { option_map part_view result ≡ source.statement_form head.Jal (row_view row.now) }
{
    let (rd, target) = register_target(row)?;
    Some(Part::Jal { rd, target })
}

fn moved<'a>(row: &[Token<&'a [u8]>]) -> Option<Part<&'a [u8]>>
    ensures { option_map part_view result ≡ source.statement_form head.Move (row_view row.now) }
{
    let (rd, rs) = two_registers(row)?;
    Some(Part::Move { rd, rs })
}

fn jump<'a>(row: &[Token<&'a [u8]>]) -> Option<Part<&'a [u8]>>
    ensures { option_map part_view result ≡ source.statement_form head.Jump (row_view row.now) }
{
    let target = one_target(row)?;
    Some(Part::Jump { target })
}

fn jump_and_link<'a>(row: &[Token<&'a [u8]>]) -> Option<Part<&'a [u8]>>
    ensures { option_map part_view result
        ≡ source.statement_form head.JumpAndLink (row_view row.now) }
{
    let (rd, target) = register_target(row)?;
    Some(Part::JumpAndLink { rd, target })
}

fn jump_register<'a>(row: &[Token<&'a [u8]>]) -> Option<Part<&'a [u8]>>
    ensures { option_map part_view result
        ≡ source.statement_form head.JumpRegister (row_view row.now) }
{
    let rs = one_register(row)?;
    Some(Part::JumpRegister { rs })
}

fn if_zero<'a>(row: &[Token<&'a [u8]>]) -> Option<Part<&'a [u8]>>
    ensures { option_map part_view result ≡ source.statement_form head.IfZero (row_view row.now) }
{
    let (rs, target) = register_target(row)?;
    Some(Part::IfZero { rs, target })
}

fn if_not_zero<'a>(row: &[Token<&'a [u8]>]) -> Option<Part<&'a [u8]>>
    ensures { option_map part_view result
        ≡ source.statement_form head.IfNotZero (row_view row.now) }
{
    let (rs, target) = register_target(row)?;
    Some(Part::IfNotZero { rs, target })
}

fn load_immediate<'a>(row: &[Token<&'a [u8]>]) -> Option<Part<&'a [u8]>>
    ensures { option_map part_view result
        ≡ source.statement_form head.LoadImmediate (row_view row.now) }
{
    let (rd, number) = register_number(row)?;
    Some(Part::LoadImmediate { rd, number })
}

fn import<'a>(row: &[Token<&'a [u8]>]) -> Option<Part<&'a [u8]>>
    ensures { option_map part_view result ≡ source.statement_form head.Import (row_view row.now) }
{
    let (rd, name) = register_name(row)?;
    Some(Part::Import { rd, name })
}

fn text_address<'a>(row: &[Token<&'a [u8]>]) -> Option<Part<&'a [u8]>>
    ensures { option_map part_view result
        ≡ source.statement_form head.TextAddress (row_view row.now) }
{
    let (rd, label) = register_name(row)?;
    Some(Part::TextAddress { rd, label })
}

fn global_address<'a>(row: &[Token<&'a [u8]>]) -> Option<Part<&'a [u8]>>
    ensures { option_map part_view result
        ≡ source.statement_form head.GlobalAddress (row_view row.now) }
{
    let (rd, label) = register_name(row)?;
    Some(Part::GlobalAddress { rd, label })
}

fn load<'a>(operation: LoadOperation, row: &[Token<&'a [u8]>]) -> Option<Part<&'a [u8]>>
    ensures { option_map part_view result
        ≡ source.statement_form (head.Load operation) (row_view row.now) }
{
    let (rd, number, rs1) = register_address(row)?;
    Some(Part::Load {
        operation,
        rd,
        number,
        rs1,
    })
}

/// `cjalr rd, number(rs1)`
fn jump_address<'a>(row: &[Token<&'a [u8]>]) -> Option<Part<&'a [u8]>>
    ensures { option_map part_view result
        ≡ option_map (λ o. part.RegisterJump o.0 o.1 o.2)
        (source.register_address (row_view row.now)) }
{
    let (rd, number, rs1) = register_address(row)?;
    Some(Part::RegisterJump { rd, number, rs1 })
}

/// `cjalr rd, rs1`
fn jump_capability<'a>(row: &[Token<&'a [u8]>]) -> Option<Part<&'a [u8]>>
    ensures { option_map part_view result
        ≡ option_map (λ o. part.JumpCapability o.0 o.1) (source.two_registers (row_view row.now)) }
{
    let (rd, rs1) = two_registers(row)?;
    Some(Part::JumpCapability { rd, rs1 })
}

/// `cjalr`, which has a second form without a number.
fn register_jump<'a>(row: &[Token<&'a [u8]>]) -> Option<Part<&'a [u8]>>
    ensures { option_map part_view result ≡ source.register_jump_form (row_view row.now) }
{
    match jump_address(row) {
        Some(part) => Some(part),
        None => jump_capability(row),
    }
}

/// The statement of a word and the tokens after it, if they are one of its operand forms.
pub(crate) fn form<'a>(head: Head, row: &[Token<&'a [u8]>]) -> Option<Part<&'a [u8]>>
    ensures { option_map part_view result ≡ source.statement_form head (row_view row.now) }
{
    match head {
        Head::Registers(operation) => registers(operation, row),
        Head::Immediate(operation) => immediate(operation, row),
        Head::Upper(operation) => upper(operation, row),
        Head::Store(operation) => store(operation, row),
        Head::Branch(operation) => branch(operation, row),
        Head::Source(operation) => source(operation, row),
        Head::Jal => jal(row),
        Head::RegisterJump => register_jump(row),
        Head::Move => moved(row),
        Head::Jump => jump(row),
        Head::JumpAndLink => jump_and_link(row),
        Head::JumpRegister => jump_register(row),
        Head::IfZero => if_zero(row),
        Head::IfNotZero => if_not_zero(row),
        Head::LoadImmediate => load_immediate(row),
        Head::Import => import(row),
        Head::TextAddress => text_address(row),
        Head::GlobalAddress => global_address(row),
        Head::Load(operation) => load(operation, row),
        Head::Bare(operation) => alone(row, Part::Bare { operation }),
        Head::Nop => alone(row, Part::Nop),
        Head::Return => alone(row, Part::Return),
    }
}

/// A directive with a number.
fn numbered<'a>(directive: Directive, row: &[Token<&'a [u8]>]) -> Option<Part<&'a [u8]>>
    requires { takes_number directive ≡ true }
    ensures { option_map part_view result ≡ source.directive_form directive (row_view row.now) }
{
    let number = one_number(row)?;
    match directive {
        Directive::Word => Some(Part::Word { number }),
        Directive::Byte => Some(Part::Byte { number }),
        Directive::Zero => Some(Part::Zero { number }),
        _ => Some(Part::Align { number }),
    }
}

/// The statement of a directive and the tokens after it, if they are its operand form.
pub(crate) fn directive_form<'a>(
    directive: Directive,
    row: &[Token<&'a [u8]>],
) -> Option<Part<&'a [u8]>>
    ensures { option_map part_view result ≡ source.directive_form directive (row_view row.now) }
{
    match directive {
        Directive::Text => alone(row, Part::Text),
        Directive::Data => alone(row, Part::Data),
        _ => numbered(directive, row),
    }
}
