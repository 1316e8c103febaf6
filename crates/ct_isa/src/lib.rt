//! Words and instructions: `decode` reads a word, `encode` writes one. Both agree with the table of
//! def_instr, both ways, and a word belongs to at most one instruction.
#![tactic(auto)]

mod capability;
mod fields;
mod flow;
mod formats;
mod instructions;
mod integer;
mod memory;
mod rows;
mod shapes;
mod system;

ghost use Rattle.std.specs.Prelude.{◌≡◌, ◌↔◌, ℕ, IsNone, IfSome, Some};
ghost use Rattle.def_instr.specs.Table.{EncodesTo, InRange, encoded};
ghost use Rattle.def_instr.specs.Reading.{instruction_in};
ghost use Rattle.def_instr.specs.declared.Instr.{Instr};

pub use crate::instructions::instruction;
pub use crate::shapes::shape;
pub use def_instr::Instr;

/// The instruction of a word; None exactly where no instruction has the word. Registers 16 and
/// above, and fields that no row of the table lists, make a word no instruction.
///
/// The clause `only` is decode(encode i) = i, `found` that the instruction encodes to the word
/// again.
pub fn decode(word: u32) -> Option<Instr>
    ensures found { IfSome result (λ i. EncodesTo i word) }
    ensures only { (i : Instr) → EncodesTo i word → result ≡ Some i }
    ensures none { IsNone result → (i : Instr) → ¬ EncodesTo i word }
    ensures value { result ≡ instruction_in word }
    ensures reading { (i : Instr) → (instruction_in word ≡ Some i) ↔ EncodesTo i word }
{
    by_opcode(word)
}

/// The instruction by the word's opcode, and then by a class's own fields.
fn by_opcode(word: u32) -> Option<Instr>
    ensures found { IfSome result (λ i. EncodesTo i word) }
    ensures value { result ≡ instruction_in word }
{
    let fields = fields::cut(word);
    match fields.opcode {
        0x13 => integer::immediate(fields),
        0x33 => integer::register(fields),
        0x03 => memory::load(fields),
        0x23 => memory::store(fields),
        0x63 => flow::branch(fields),
        0x5B => capability::capability(fields),
        0x37 | 0x17 | 0x7B => system::upper(fields),
        0x6F => flow::jump(fields),
        0x67 => flow::register_jump(fields),
        0x0F => system::fence(fields),
        0x73 => system::system(fields),
        _ => None,
    }
}

/// The word of an instruction whose fields are in range.
pub fn encode(instruction: Instr) -> u32
    requires { InRange instruction }
    ensures word { result ≡ encoded instruction }
    ensures table { EncodesTo instruction result }
{
    rows::word(shapes::shape(instruction))
}

/// A word belongs to at most one instruction.
pub fn one_instruction()
    ensures { (i j : Instr) (word : ℕ) → EncodesTo i word → EncodesTo j word → i ≡ j }
{}
