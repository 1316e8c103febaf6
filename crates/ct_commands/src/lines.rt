//! The lines of refusals that hold numbers, and parts of such lines. None of them takes memory.

ghost use Rattle.std.specs.Prelude.{◌≡◌, ◌+◌, ◌≤◌, ◌++◌, ◌∷◌, [], length, decimal};
ghost use Rattle.def_program.specs.Lines as spec;

use arrayvec::ArrayString;
use ct_desc_rows::Desc;
use ct_entry::Owner;
use def_desc::{Fault, PartWord};
use itoa::Buffer;

/// A line, or a part of one. None is longer than 128 bytes.
pub(crate) type Line = ArrayString<128>;

/// The word of a description's part.
fn part_word(part: PartWord) -> &'static str
    ensures word { result.now ≡ spec.part_word part }
    ensures size { length result.now ≤ 11 }
{
    match part {
        PartWord::Firmware => "firmware",
        PartWord::Ram => "ram",
        PartWord::Device => "device",
        PartWord::Shared => "shared",
        PartWord::Sealed => "sealed",
        PartWord::Compartment => "compartment",
        PartWord::Import => "import",
        PartWord::Quota => "quota",
        PartWord::Key => "key",
        PartWord::Export => "export",
        PartWord::Library => "library",
        PartWord::Limport => "limport",
        PartWord::Lexport => "lexport",
        PartWord::Thread => "thread",
    }
}

/// The name of a compartment or a library of a description; nothing for other owners.
pub(crate) fn owner_name<'a>(desc: &'a Desc, owner: Owner) -> &'a str
    ensures { result.now ≡ spec.described_owner_name desc.now owner }
{
    match owner {
        Owner::Compartment(index) => match desc.compartments.get(index as usize) {
            Some(compartment) => compartment.name.as_str(),
            None => "",
        },
        Owner::Library(index) => match desc.libraries.get(index as usize) {
            Some(library) => library.name.as_str(),
            None => "",
        },
        _ => "",
    }
}

/// A number in decimal digits, of at most 64 bits.
fn add_number(line: &mut Line, number: u64)
    requires { length line.old.bytes + 20 ≤ 128 }
    ensures bytes { line.new.bytes ≡ line.old.bytes ++ decimal number }
    ensures size { length line.new.bytes ≤ length line.old.bytes + 20 }
{
    let mut buffer = Buffer::new();
    line.push_str(buffer.format(number));
}

/// A number after a text.
fn add_after(line: &mut Line, text: &str, number: u64)
    requires { length line.old.bytes + length text.now + 20 ≤ 128 }
    ensures bytes { line.new.bytes ≡ line.old.bytes ++ (text.now ++ decimal number) }
    ensures size { length line.new.bytes ≤ length line.old.bytes + length text.now + 20 }
{
    line.push_str(text);
    add_number(line, number);
}

/// The end of a line: a number after a space.
pub(crate) fn line_end(number: u32) -> Line
    ensures { result.bytes ≡ 32 ∷ (decimal number ++ 10 ∷ []) }
{
    let mut line = Line::new();
    add_after(&mut line, " ", number as u64);
    line.push('\n');
    line
}

/// The front of a line that goes on after this: a text, a number and a space.
pub(crate) fn line_front(text: &str, number: u32) -> Line
    requires { length text.now ≤ 40 }
    ensures { result.bytes ≡ text.now ++ (decimal number ++ 32 ∷ []) }
{
    let mut line = Line::new();
    add_after(&mut line, text, number as u64);
    line.push(' ');
    line
}

/// A line of a text and two numbers, the first of them right after it.
pub(crate) fn line_of_two(text: &str, first: u64, second: u64) -> Line
    requires { length text.now ≤ 40 }
    ensures { result.bytes ≡ text.now ++ (decimal first ++ 32 ∷ (decimal second ++ 10 ∷ [])) }
{
    let mut line = Line::new();
    add_after(&mut line, text, first);
    add_after(&mut line, " ", second);
    line.push('\n');
    line
}

/// The word of a part, after a space.
fn add_word(line: &mut Line, part: PartWord)
    requires { length line.old.bytes + 12 ≤ 128 }
    ensures bytes { line.new.bytes ≡ line.old.bytes ++ 32 ∷ spec.part_word part }
    ensures size { length line.new.bytes ≤ length line.old.bytes + 12 }
{
    line.push(' ');
    line.push_str(part_word(part));
}

/// The line that refuses a description: the fault's number, the part, and its two indexes.
pub(crate) fn description_line(fault: Fault) -> Line
    ensures { result.bytes ≡ spec.description_line fault }
{
    let mut line = Line::new();
    add_after(&mut line, "refused 4 description F", fault.number as u64);
    add_word(&mut line, fault.place.part);
    add_after(&mut line, " ", fault.place.index as u64);
    add_after(&mut line, " ", fault.place.item as u64);
    line.push('\n');
    line
}
