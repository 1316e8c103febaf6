//! The object of one owner's code.

ghost use Rattle.std.specs.Prelude.{◌≡◌, ◌<◌, ◌^◌, [], length, IfOk, IfErr, Ok, Err};
ghost use Rattle.std.specs.List.{flat_map};
ghost use Rattle.def_source.specs.Source.{program_of};
ghost use Rattle.def_object.specs.Object.{word_bytes};
ghost use Rattle.def_link.specs.Owners as owners;
ghost use Rattle.ct_link_objects.specs.Objects.{IsBuilt, RefusesLink};

use ct_asm::{Names, Object, assemble, undeclared};
use ct_desc_rows::Code;
use ct_entry::Owner;
use ct_source::statements;
use def_link::LinkFault;
use def_source::AsmFault;
use std::alloc::{AllocError, Global};

/// The bytes of words, the lowest byte of each first.
fn words_text(alloc: Global, words: &[u32]) -> Result<Vec<u8>, AllocError>
    ensures { IfOk result (λ text. text.items ≡ flat_map word_bytes words.now) }
{
    let mut text = Vec::new(alloc);
    for word in words {
        text.extend_from_slice(&word.to_le_bytes())?;
    }
    Ok(text)
}

/// The object of words: their bytes alone.
#[tactic(auto, using(crate::proofs::Codes::words_hold))]
fn words_object(alloc: Global, words: &[u32]) -> Result<Object, LinkFault>
    ensures ok { IfOk result (λ o. IsBuilt (Ok (owners.words_built words.now)) o) }
    ensures err { IfErr result (λ e. RefusesLink (Ok (owners.words_built words.now)) e) }
{
    match words_text(alloc, words) {
        Ok(text) => Ok(Object::of_text(alloc, text)),
        Err(_) => Err(LinkFault::NoMemory),
    }
}

/// What a fault of an owner's source is as a fault of linking.
fn at(owner: Owner, fault: AsmFault) -> LinkFault
    ensures { owners.read_or owner [] (Err fault) ≡ Err result }
{
    match fault {
        AsmFault::At { number, line } => LinkFault::Asm {
            owner,
            number,
            line,
        },
        AsmFault::NoMemory => LinkFault::NoMemory,
    }
}

/// The object of a source: a fault of its text first, then an import that isn't declared, then a
/// fault of the assembly.
#[tactic(auto, using(crate::proofs::Codes::source_unread, crate::proofs::Codes::source_undeclared, crate::proofs::Codes::source_faulty, crate::proofs::Codes::source_holds))]
fn source_object(
    alloc: Global,
    owner: Owner,
    slots: &Names,
    source: &[u8],
) -> Result<Object, LinkFault>
    requires { length source.now < 2 ^ 32 }
    ensures ok { IfOk result
        (λ o. IsBuilt (owners.read_or owner slots.now (program_of source.now)) o) }
    ensures err { IfErr result
        (λ e. RefusesLink (owners.read_or owner slots.now (program_of source.now)) e) }
{
    let program = match statements(alloc, source) {
        Ok(program) => program,
        Err(fault) => return Err(at(owner, fault)),
    };
    if let Some(line) = undeclared(&program, slots) {
        return Err(LinkFault::Import { owner, line });
    }
    match assemble(alloc, &program, slots) {
        Ok(object) => Ok(object),
        Err(fault) => Err(at(owner, fault)),
    }
}

/// The object of an owner's code, whose source this is where it is a file.
pub(crate) fn code_object(
    alloc: Global,
    owner: Owner,
    slots: &Names,
    code: &Code,
    source: &[u8],
) -> Result<Object, LinkFault>
    requires { length source.now < 2 ^ 32 }
    ensures ok { IfOk result
        (λ o. IsBuilt (owners.built owner slots.now code.now source.now) o) }
    ensures err { IfErr result
        (λ e. RefusesLink (owners.built owner slots.now code.now source.now) e) }
{
    match &code.file {
        None => words_object(alloc, code.words.as_slice()),
        Some(_) => source_object(alloc, owner, slots, source),
    }
}
