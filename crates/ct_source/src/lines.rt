//! What stands on a line: a label, a statement, or the number of a fault.

ghost use Rattle.std.specs.Prelude.{◌≡◌, ◌<◌, ◌≤◌, ◌∷◌, length, option_map, IfOk};
ghost use Rattle.def_source.specs.Source as source;
ghost use Rattle.def_source.specs.Source.{result_map, Gives};
ghost use Rattle.ct_source.specs.Views.{row_view, part_view, line_view, at_line};
ghost use Rattle.ct_source.specs.Compact.{compact_part};
ghost use Rattle.ct_source.specs.Runs.{len_before, shortened};

use crate::characters::are_ascii;
use crate::compact::{CompactLine, CompactPart};
use crate::forms::{directive_form, form};
use crate::ranges::{in_section, numbers_fit, registers_exist};
use crate::tables;
use crate::tokens::row;
use def_source::AsmFault;
use def_source::parts::{Part, Section, Token};
use std::alloc::{AllocError, Global};

/// A statement that has its form, or the least number of what it breaks.
#[tactic(auto, using(crate::proofs::SmallNumbers::numbers_small))]
fn lawful<'a>(section: Section, part: Part<&'a [u8]>) -> Result<CompactPart<'a>, u32>
    ensures { result_map compact_part result
        ≡ source.lawful_or_fault section (part_view part.entry) }
{
    if !in_section(section, part) {
        return Err(3);
    }
    if !numbers_fit(part) {
        return Err(4);
    }
    if !registers_exist(part) {
        return Err(7);
    }
    Ok(CompactPart::of(part))
}

/// The statement of a form, if it has one.
fn formed<'a>(
    section: Section,
    part: Option<Part<&'a [u8]>>,
) -> Result<Option<CompactPart<'a>>, u32>
    ensures { result_map (λ o. option_map compact_part o) result
        ≡ source.formed section (option_map part_view part.entry) }
{
    match part {
        Some(part) => match lawful(section, part) {
            Ok(part) => Ok(Some(part)),
            Err(number) => Err(number),
        },
        None => Err(3),
    }
}

/// The statement of a row of tokens, which may be none.
fn statement<'a>(section: Section, row: &[Token<&'a [u8]>]) -> Result<Option<CompactPart<'a>>, u32>
    ensures { result_map (λ o. option_map compact_part o) result
        ≡ source.statement_of section (row_view row.now) }
{
    match row {
        [] => Ok(None),
        [Token::Name(name), rest @ ..] => match tables::head(name) {
            Some(head) => formed(section, form(head, rest)),
            None => Err(2),
        },
        [Token::Directive(name), rest @ ..] => match tables::directive(name) {
            Some(directive) => formed(section, directive_form(directive, rest)),
            None => Err(2),
        },
        _ => Err(2),
    }
}

/// The label at the front of a row.
fn label<'a>(row: &[Token<&'a [u8]>]) -> Option<&'a [u8]>
    ensures { option_map (λ n. n.now) result ≡ source.label_of (row_view row.now) }
{
    match row {
        [Token::Name(name), Token::Colon, ..] => Some(*name),
        _ => None,
    }
}

/// What stands after the label at the front of a row.
fn after_label<'a, 'b>(row: &'b [Token<&'a [u8]>]) -> &'b [Token<&'a [u8]>]
    ensures { row_view result.now ≡ source.after_label (row_view row.now) }
{
    match row {
        [Token::Name(_), Token::Colon, rest @ ..] => rest,
        _ => row,
    }
}

/// What a row of tokens says.
#[tactic(auto, unfolding(def_source::specs::Source::row_line))]
fn row_line<'a>(section: Section, row: &[Token<&'a [u8]>]) -> Result<CompactLine<'a>, u32>
    ensures { result_map line_view result ≡ source.row_line section (row_view row.now) }
{
    match statement(section, after_label(row)) {
        Ok(part) => Ok(CompactLine {
            label: label(row),
            part,
        }),
        Err(number) => Err(number),
    }
}

/// How many bytes stand before the first one of that value.
fn length_before(stop: u8, text: &[u8]) -> usize
    ensures value { result ≡ len_before stop text.now }
    ensures within { result ≤ length text.now }
{
    for (i, c) in text.iter().enumerate() {
        if *c == stop {
            return i;
        }
    }
    text.len()
}

/// A line up to its comment.
#[tactic(auto, using(crate::proofs::LineEnds::to_comment))]
fn before_comment(line: &[u8]) -> &[u8]
    ensures { result.now ≡ source.before_comment line.now }
{
    &line[..length_before(b'#', line)]
}

/// The first tokens of a line, if it is ASCII and a row of tokens before its comment.
#[tactic(auto, unfolding(def_source::specs::Source::line_tokens))]
fn line_tokens<'a>(
    alloc: Global,
    line: &'a [u8],
) -> Result<Option<Vec<Token<&'a [u8]>>>, AllocError>
    ensures { IfOk result
        (λ o. option_map (λ v. row_view v.items) o ≡ shortened (source.line_tokens line.now)) }
{
    if !are_ascii(line) {
        return Ok(None);
    }
    row(alloc, before_comment(line))
}

/// What stands on the line of that number.
#[tactic(auto, unfolding(def_source::specs::Source::line_of), using(crate::proofs::LongRows::short_line))]
pub(crate) fn line<'a>(
    alloc: Global,
    section: Section,
    number: u32,
    text: &'a [u8],
) -> Result<CompactLine<'a>, AsmFault>
    ensures { Gives line_view result (at_line number (source.line_of section text.now)) }
{
    match line_tokens(alloc, text) {
        Ok(Some(tokens)) => match row_line(section, tokens.as_slice()) {
            Ok(line) => Ok(line),
            Err(fault) => Err(AsmFault::At {
                number: fault,
                line: number,
            }),
        },
        Ok(None) => Err(AsmFault::At {
            number: 1,
            line: number,
        }),
        Err(_) => Err(AsmFault::NoMemory),
    }
}

/// The first line of a text that isn't empty, and the text after its line feed.
pub(crate) fn first_line(text: &[u8]) -> (&[u8], &[u8])
    requires { 0 < length text.now }
    ensures lines { source.lines_of text.now ≡ result.0.now ∷ source.lines_of result.1.now }
    ensures shorter { length result.1.now < length text.now }
{
    let (line, rest) = text.split_at(length_before(b'\n', text));
    if rest.is_empty() {
        return (line, rest);
    }
    let (_, after) = rest.split_at(1);
    (line, after)
}
