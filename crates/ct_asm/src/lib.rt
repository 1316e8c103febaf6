//! From statements to an object: `assemble` gives the bytes that statements stand for, or the least
//! fault, exactly as the written definition says (docs/use/assembler.md). `undeclared` finds an import
//! that has no slot, `Object::find` a label of the text.
#![tactic(auto)]

mod bytes;
mod emit;
mod faults;
mod instructions;
mod keying;
mod labels;
mod names;
mod object;
mod places;
mod tables;
mod ways;

ghost use Rattle.std.specs.Prelude.{◌≡◌, None, IfOk, IfErr};
ghost use Rattle.def_source.specs.Source.{IsLawful};
ghost use Rattle.def_object.specs.Object.{undeclared_in};
ghost use Rattle.ct_source.specs.Views.{program_view, statements_view};
ghost use Rattle.ct_asm.specs.Labels.{IsAssembled, RefusesStatements};

pub use crate::names::Names;
pub use crate::object::Object;
use crate::tables::is_undeclared;
use ct_source::Program;
use ct_source::compact::CompactStatement;
use def_source::AsmFault;
use std::alloc::Global;

/// The first line that names an import which has no slot of that name.
pub fn undeclared(program: &Program<'_>, imports: &Names) -> Option<u32>
    ensures { result ≡ undeclared_in imports.now (program_view program.now) }
{
    first_undeclared(program.statements.as_slice(), imports)
}

/// The first line of statements that names no slot.
fn first_undeclared(statements: &[CompactStatement<'_>], imports: &Names) -> Option<u32>
    ensures { result ≡ undeclared_in imports.now (statements_view statements.now) }
{
    for s in statements {
        if is_undeclared(imports, s.part) {
            return Some(s.line);
        }
    }
    None
}

/// The object of statements, as `ct_source::statements` gives them.
///
/// `AsmFault::At` names the least line that has a fault, and on it the least number: A4 a label out
/// of a branch's reach; A5 a label twice, at the second; A6 a label that isn't defined in the
/// section where its use needs it; A8 the statement that passes 1,048,576 bytes of a section
/// (docs/use/errors.md, "5 assembly"). `AsmFault::NoMemory` comes where a growth was refused.
pub fn assemble(alloc: Global, program: &Program<'_>, imports: &Names) -> Result<Object, AsmFault>
    requires lawful { IsLawful (program_view program.now) }
    requires declared { undeclared_in imports.now (program_view program.now) ≡ None }
    ensures ok { IfOk result (λ o. IsAssembled (program_view program.now) imports.now o) }
    ensures err { IfErr result (λ e. RefusesStatements e (program_view program.now)) }
{
    object::assembled(alloc, program.statements.as_slice(), imports)
}
