//! From text to statements: `statements` gives the statements that a source stands for, or the
//! first line's fault, exactly as the written definition says (docs/use/assembler.md).
#![tactic(auto)]

mod characters;
pub mod compact;
mod forms;
mod lines;
mod numbers;
mod operands;
mod ranges;
mod tables;
mod tokens;

ghost use Rattle.std.specs.Prelude.{◌≡◌, ◌++◌, ◌+◌, ◌<◌, ◌^◌, length, option_map, OnOk, IfOk};
ghost use Rattle.def_source.specs.Source as source;
ghost use Rattle.def_source.specs.declared.parts.Section.TheVariants as section;
ghost use Rattle.def_source.specs.Source.{Gives, IsLawful, program_of};
ghost use Rattle.ct_source.specs.Views.{line_view, statements_view, program_view};
ghost use Rattle.ct_source.specs.Compact.{compact_part};

use crate::compact::{CompactLine, CompactPart, CompactStatement};
use crate::lines::{first_line, line};
use def_source::AsmFault;
use def_source::parts::Section;
use std::alloc::{AllocError, Global};

/// The labels and statements of a source, in order. Names are slices of the source.
#[derive(Drop)]
pub struct Program<'a> {
    pub statements: Vec<CompactStatement<'a>>,
}

/// The statements that a text stands for.
///
/// `AsmFault::At` names the first line that has a fault, and on it the least number: A1 a byte that
/// isn't ASCII, or a row that isn't one of tokens; A2 an unknown first word; A3 operands of no form,
/// or a statement in the wrong section; A4 a number out of range; A7 a register above 15
/// (docs/use/errors.md, "5 assembly"). `AsmFault::NoMemory` comes where a growth was refused.
#[tactic(auto, unfolding(def_source::specs::Source::program_of))]
pub fn statements<'a>(alloc: Global, text: &'a [u8]) -> Result<Program<'a>, AsmFault>
    requires { length text.now < 2 ^ 32 }
    ensures program { Gives program_view result (program_of text.now) }
    ensures lawful { IfOk result (λ p. IsLawful (program_view p)) }
{
    match all_statements(alloc, text) {
        Ok(statements) => Ok(Program { statements }),
        Err(fault) => Err(fault),
    }
}

/// The statements, line by line.
fn all_statements<'a>(alloc: Global, text: &'a [u8]) -> Result<Vec<CompactStatement<'a>>, AsmFault>
    requires { length text.now < 2 ^ 32 }
    ensures { Gives (λ v. statements_view v.items) result
        (source.program_from section.Text 1 (source.lines_of text.now)) }
{
    let mut all = Vec::new(alloc);
    let mut section = Section::Text;
    let mut number = 0;
    let mut rest = text;
    while !rest.is_empty() {
        number += 1;
        let (current, after) = first_line(rest);
        let read = match line(alloc, section, number, current) {
            Ok(read) => read,
            Err(fault) => return Err(fault),
        };
        section = section_after(section, read.part);
        if add(&mut all, number, read).is_err() {
            return Err(AsmFault::NoMemory);
        }
        rest = after;
    }
    Ok(all)
}

/// Adds what stands on a line.
fn add<'a>(
    all: &mut Vec<CompactStatement<'a>>,
    line: u32,
    read: CompactLine<'a>,
) -> Result<(), AllocError>
    ensures { OnOk result
        (statements_view all.new.items ≡ statements_view all.old.items
        ++ source.line_statements line (line_view read.entry)) }
{
    if let Some(name) = read.label {
        all.push(CompactStatement {
            line,
            part: CompactPart::Label { name },
        })?;
    }
    if let Some(part) = read.part {
        all.push(CompactStatement { line, part })?;
    }
    Ok(())
}

/// The section after a statement.
fn section_after(section: Section, part: Option<CompactPart<'_>>) -> Section
    ensures { result ≡ source.section_after section (option_map compact_part part.entry) }
{
    match part {
        Some(CompactPart::Text) => Section::Text,
        Some(CompactPart::Data) => Section::Data,
        _ => section,
    }
}
