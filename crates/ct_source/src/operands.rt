//! Operands at the front of a row of tokens, each with the tokens after it, and whole operand forms.

ghost use Rattle.std.specs.Prelude.{◌≡◌, option_map, Some, None};
ghost use Rattle.def_source.specs.Source as source;
ghost use Rattle.ct_source.specs.Views.{row_view, target_view};

use crate::tables;
use def_source::parts::{Number, Target, Token};

/// A comma.
fn comma_at<'a, 'b>(row: &'b [Token<&'a [u8]>]) -> Option<&'b [Token<&'a [u8]>]>
    ensures { option_map (λ r. row_view r.now) result ≡ source.comma_at (row_view row.now) }
{
    match row {
        [Token::Comma, rest @ ..] => Some(rest),
        _ => None,
    }
}

/// An opening bracket.
fn open_at<'a, 'b>(row: &'b [Token<&'a [u8]>]) -> Option<&'b [Token<&'a [u8]>]>
    ensures { option_map (λ r. row_view r.now) result ≡ source.open_at (row_view row.now) }
{
    match row {
        [Token::Open, rest @ ..] => Some(rest),
        _ => None,
    }
}

/// A closing bracket.
fn close_at<'a, 'b>(row: &'b [Token<&'a [u8]>]) -> Option<&'b [Token<&'a [u8]>]>
    ensures { option_map (λ r. row_view r.now) result ≡ source.close_at (row_view row.now) }
{
    match row {
        [Token::Close, rest @ ..] => Some(rest),
        _ => None,
    }
}

/// A name.
fn name_at<'a, 'b>(row: &'b [Token<&'a [u8]>]) -> Option<(&'a [u8], &'b [Token<&'a [u8]>])>
    ensures { option_map (λ p. (p.0.now, row_view p.1.now)) result
        ≡ source.name_at (row_view row.now) }
{
    match row {
        [Token::Name(name), rest @ ..] => Some((*name, rest)),
        _ => None,
    }
}

/// A number.
fn number_at<'a, 'b>(row: &'b [Token<&'a [u8]>]) -> Option<(Number, &'b [Token<&'a [u8]>])>
    ensures { option_map (λ p. (p.0, row_view p.1.now)) result
        ≡ source.number_at (row_view row.now) }
{
    match row {
        [Token::Number(number), rest @ ..] => Some((*number, rest)),
        _ => None,
    }
}

/// A label, or an offset.
fn target_at<'a, 'b>(
    row: &'b [Token<&'a [u8]>],
) -> Option<(Target<&'a [u8]>, &'b [Token<&'a [u8]>])>
    ensures { option_map (λ p. (target_view p.0, row_view p.1.now)) result
        ≡ source.target_at (row_view row.now) }
{
    match row {
        [Token::Name(name), rest @ ..] => Some((Target::Label(*name), rest)),
        [Token::Number(number), rest @ ..] => Some((Target::Offset(*number), rest)),
        _ => None,
    }
}

/// A register, by any of its names.
#[tactic(auto, unfolding(def_source::specs::Source::register_at))]
fn register_at<'a, 'b>(row: &'b [Token<&'a [u8]>]) -> Option<(u32, &'b [Token<&'a [u8]>])>
    ensures { option_map (λ p. (p.0, row_view p.1.now)) result
        ≡ source.register_at (row_view row.now) }
{
    let (name, rest) = name_at(row)?;
    let register = tables::register(name)?;
    Some((register, rest))
}

/// A register, and a comma.
#[tactic(auto, unfolding(def_source::specs::Source::register_comma))]
fn register_comma<'a, 'b>(row: &'b [Token<&'a [u8]>]) -> Option<(u32, &'b [Token<&'a [u8]>])>
    ensures { option_map (λ p. (p.0, row_view p.1.now)) result
        ≡ source.register_comma (row_view row.now) }
{
    let (register, rest) = register_at(row)?;
    let rest = comma_at(rest)?;
    Some((register, rest))
}

/// A number, and a register in brackets.
#[tactic(auto, unfolding(def_source::specs::Source::address_at))]
fn address_at<'a, 'b>(row: &'b [Token<&'a [u8]>]) -> Option<(Number, u32, &'b [Token<&'a [u8]>])>
    ensures { option_map (λ p. (p.0, p.1, row_view p.2.now)) result
        ≡ source.address_at (row_view row.now) }
{
    let (number, rest) = number_at(row)?;
    let rest = open_at(rest)?;
    let (register, rest) = register_at(rest)?;
    let rest = close_at(rest)?;
    Some((number, register, rest))
}

/// `rd, rs1`, and nothing after it.
#[tactic(auto, unfolding(def_source::specs::Source::two_registers))]
pub(crate) fn two_registers<'a>(row: &[Token<&'a [u8]>]) -> Option<(u32, u32)>
    ensures { result ≡ source.two_registers (row_view row.now) }
{
    let (a, rest) = register_comma(row)?;
    let (b, rest) = register_at(rest)?;
    if !rest.is_empty() {
        return None;
    }
    Some((a, b))
}

/// `rd, rs1, rs2`, and nothing after it.
#[tactic(auto, unfolding(def_source::specs::Source::three_registers))]
pub(crate) fn three_registers<'a>(row: &[Token<&'a [u8]>]) -> Option<(u32, u32, u32)>
    ensures { result ≡ source.three_registers (row_view row.now) }
{
    let (a, rest) = register_comma(row)?;
    let (b, rest) = register_comma(rest)?;
    let (c, rest) = register_at(rest)?;
    if !rest.is_empty() {
        return None;
    }
    Some((a, b, c))
}

/// `rd, rs1, number`, and nothing after it.
#[tactic(auto, unfolding(def_source::specs::Source::two_registers_number))]
pub(crate) fn two_registers_number<'a>(row: &[Token<&'a [u8]>]) -> Option<(u32, u32, Number)>
    ensures { result ≡ source.two_registers_number (row_view row.now) }
{
    let (a, rest) = register_comma(row)?;
    let (b, rest) = register_comma(rest)?;
    let (number, rest) = number_at(rest)?;
    if !rest.is_empty() {
        return None;
    }
    Some((a, b, number))
}

/// `rs1, rs2, target`, and nothing after it.
#[tactic(auto, unfolding(def_source::specs::Source::two_registers_target))]
pub(crate) fn two_registers_target<'a>(
    row: &[Token<&'a [u8]>],
) -> Option<(u32, u32, Target<&'a [u8]>)>
    ensures { option_map (λ o. (o.0, o.1, target_view o.2)) result
        ≡ source.two_registers_target (row_view row.now) }
{
    let (a, rest) = register_comma(row)?;
    let (b, rest) = register_comma(rest)?;
    let (target, rest) = target_at(rest)?;
    if !rest.is_empty() {
        return None;
    }
    Some((a, b, target))
}

/// `rd, number`, and nothing after it.
#[tactic(auto, unfolding(def_source::specs::Source::register_number))]
pub(crate) fn register_number<'a>(row: &[Token<&'a [u8]>]) -> Option<(u32, Number)>
    ensures { result ≡ source.register_number (row_view row.now) }
{
    let (a, rest) = register_comma(row)?;
    let (number, rest) = number_at(rest)?;
    if !rest.is_empty() {
        return None;
    }
    Some((a, number))
}

/// `rd, target`, and nothing after it.
#[tactic(auto, unfolding(def_source::specs::Source::register_and_target))]
pub(crate) fn register_target<'a>(row: &[Token<&'a [u8]>]) -> Option<(u32, Target<&'a [u8]>)>
    ensures { option_map (λ o. (o.0, target_view o.1)) result
        ≡ source.register_and_target (row_view row.now) }
{
    let (a, rest) = register_comma(row)?;
    let (target, rest) = target_at(rest)?;
    if !rest.is_empty() {
        return None;
    }
    Some((a, target))
}

/// `rd, name`, and nothing after it.
#[tactic(auto, unfolding(def_source::specs::Source::register_name))]
pub(crate) fn register_name<'a>(row: &[Token<&'a [u8]>]) -> Option<(u32, &'a [u8])>
    ensures { option_map (λ o. (o.0, o.1.now)) result ≡ source.register_name (row_view row.now) }
{
    let (a, rest) = register_comma(row)?;
    let (name, rest) = name_at(rest)?;
    if !rest.is_empty() {
        return None;
    }
    Some((a, name))
}

/// `rd, number(rs1)`, and nothing after it.
#[tactic(auto, unfolding(def_source::specs::Source::register_address))]
pub(crate) fn register_address<'a>(row: &[Token<&'a [u8]>]) -> Option<(u32, Number, u32)>
    ensures { result ≡ source.register_address (row_view row.now) }
{
    let (a, rest) = register_comma(row)?;
    let (number, b, rest) = address_at(rest)?;
    if !rest.is_empty() {
        return None;
    }
    Some((a, number, b))
}

/// `rs`, and nothing after it.
#[tactic(auto, unfolding(def_source::specs::Source::one_register))]
pub(crate) fn one_register<'a>(row: &[Token<&'a [u8]>]) -> Option<u32>
    ensures { result ≡ source.one_register (row_view row.now) }
{
    let (a, rest) = register_at(row)?;
    if !rest.is_empty() {
        return None;
    }
    Some(a)
}

/// `number`, and nothing after it.
#[tactic(auto, unfolding(def_source::specs::Source::one_number))]
pub(crate) fn one_number<'a>(row: &[Token<&'a [u8]>]) -> Option<Number>
    ensures { result ≡ source.one_number (row_view row.now) }
{
    let (number, rest) = number_at(row)?;
    if !rest.is_empty() {
        return None;
    }
    Some(number)
}

/// `target`, and nothing after it.
#[tactic(auto, unfolding(def_source::specs::Source::one_target))]
pub(crate) fn one_target<'a>(row: &[Token<&'a [u8]>]) -> Option<Target<&'a [u8]>>
    ensures { option_map target_view result ≡ source.one_target (row_view row.now) }
{
    let (target, rest) = target_at(row)?;
    if !rest.is_empty() {
        return None;
    }
    Some(target)
}
