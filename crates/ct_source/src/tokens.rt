//! A line's tokens.

ghost use Rattle.std.specs.Prelude.{◌≡◌, ◌<◌, ◌≤◌, ◌∷◌, ◌++◌, [], false, length, take, option_map, IfOk, OnOk};
ghost use Rattle.ct_source.specs.Runs.{run, begins_blank, shortened};
ghost use Rattle.def_source.specs.Source as source;
ghost use Rattle.ct_source.specs.Views.{token_view, row_view};

use crate::characters::{is_blank, is_inner, is_letter, is_name};
use crate::numbers::number;
use def_source::parts::Token;
use std::alloc::{AllocError, Global};

/// The token that a piece is: a mark, a directive word, a name or a number.
fn token(piece: &[u8]) -> Option<Token<&[u8]>>
    ensures { option_map token_view result ≡ source.token_of piece.now }
{
    let [first, rest @ ..] = piece else {
        return None;
    };
    match *first {
        b',' => Some(Token::Comma),
        b':' => Some(Token::Colon),
        b'(' => Some(Token::Open),
        b')' => Some(Token::Close),
        b'.' => is_name(rest).then_some(Token::Directive(rest)),
        c if is_letter(c) => is_name(piece).then_some(Token::Name(piece)),
        _ => match number(piece) {
            Some(n) => Some(Token::Number(n)),
            None => None,
        },
    }
}

/// How many bytes at the front are neither blanks nor marks.
fn inner_len(text: &[u8]) -> usize
    ensures value { result ≡ run text.now }
{
    for (i, c) in text.iter().enumerate() {
        if !is_inner(*c) {
            return i;
        }
    }
    text.len()
}

/// The text from its first byte on that isn't a blank.
fn skip_blanks(text: &[u8]) -> &[u8]
    ensures pieces { source.pieces result.now ≡ source.pieces text.now }
    ensures begins { begins_blank result.now ≡ false }
    ensures len { length result.now ≤ length text.now }
{
    for (i, c) in text.iter().enumerate() {
        if !is_blank(*c) {
            return &text[i..];
        }
    }
    &text[text.len()..]
}

/// The first piece of a text that doesn't begin with a blank, and what follows it.
fn first_piece(text: &[u8]) -> (&[u8], &[u8])
    requires some { 0 < length text.now }
    requires begins { begins_blank text.now ≡ false }
    ensures pieces { source.pieces text.now ≡ result.0.now ∷ source.pieces result.1.now }
    ensures shorter { length result.1.now < length text.now }
{
    let len = inner_len(text);
    if len == 0 {
        return text.split_at(1);
    }
    text.split_at(len)
}

/// How many tokens of a line are kept: one more than the longest line has. Nine are `go: clc ca0, 8(csp)`; by the tenth
/// a line that goes on after them is known.
const MOST_TOKENS: usize = 10;

/// Adds a token, unless there are enough.
#[tactic(auto, using(crate::proofs::RowsOf::room, crate::proofs::RowsOf::full))]
fn add_token<'a>(all: &mut Vec<Token<&'a [u8]>>, token: Token<&'a [u8]>) -> Result<(), AllocError>
    requires { length all.old.items ≤ 10 }
    ensures items { OnOk result (all.new.items ≡ take 10 (all.old.items ++ token.entry ∷ [])) }
    ensures few { OnOk result (length all.new.items ≤ 10) }
{
    if all.len() < MOST_TOKENS {
        all.push(token)?;
    }
    Ok(())
}

/// The first tokens of the row that a text is, if each of its pieces is a token.
pub(crate) fn row<'a>(
    alloc: Global,
    text: &'a [u8],
) -> Result<Option<Vec<Token<&'a [u8]>>>, AllocError>
    ensures { IfOk result
        (λ o. option_map (λ v. row_view v.items) o
        ≡ shortened (source.row_of (source.pieces text.now))) }
{
    let mut all = Vec::new(alloc);
    let mut rest = skip_blanks(text);
    while !rest.is_empty() {
        let (piece, after) = first_piece(rest);
        match token(piece) {
            Some(t) => add_token(&mut all, t)?,
            None => return Ok(None),
        }
        rest = skip_blanks(after);
    }
    Ok(Some(all))
}
