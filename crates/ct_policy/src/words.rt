//! The words of a line.

ghost use Rattle.std.specs.Prelude.{ℕ, ◌≡◌, ◌+◌, ◌<◌, ◌≤◌, ◌++◌, length, take, drop, IfOk, MatchOption, slice_index_or};
ghost use Rattle.std.specs.List.{list_all, prefix_len};
ghost use Rattle.def_policy.specs.Rules.{is_word_byte};
ghost use Rattle.ct_policy.specs.Words.{IsFirst, IsLine, NoFirst, NoWords, texts};

use std::alloc::{AllocError, Global};

/// A word, whether it is the last of its line, and what follows the byte after it.
#[derive(Clone, Copy)]
pub(crate) struct Word<'a> {
    pub word: &'a [u8],
    pub last: bool,
    pub rest: &'a [u8],
}

/// The words of a line, and what follows its line feed.
#[derive(Drop)]
pub(crate) struct Line<'a> {
    pub words: Vec<&'a [u8]>,
    pub rest: &'a [u8],
}

/// An ASCII byte other than a space and a line feed.
fn is_inner(byte: u8) -> bool
    ensures { result ≡ is_word_byte byte }
{
    byte < 128 && (byte != b' ' && byte != b'\n')
}

/// How many bytes stand before the first that no word has.
fn run_length(text: &[u8]) -> usize
    ensures is { result ≡ prefix_len is_word_byte text.now }
    ensures within { result ≤ length text.now }
{
    text.iter().take_while(|byte| is_inner(**byte)).count()
}

/// The word at the front of a text, before a space or a line feed.
#[tactic(auto, using(crate::proofs::Firsts::no_front, crate::proofs::Firsts::endless, crate::proofs::Firsts::other_end, crate::proofs::Firsts::first_is))]
fn first_word(text: &[u8]) -> Option<Word<'_>>
    ensures { MatchOption result (NoFirst text.now)
        (λ w. IsFirst text.now w.word.now w.last w.rest.now) }
{
    let place = run_length(text);
    if place == 0 {
        return None;
    }
    if place == text.len() {
        return None;
    }
    let end = text[place];
    if end != b' ' && end != b'\n' {
        return None;
    }
    Some(Word {
        word: &text[..place],
        last: end == b'\n',
        rest: &text[place + 1..],
    })
}

/// The words of the line at the front of a text; none where no line stands there.
pub(crate) fn first_line(alloc: Global, text: &[u8]) -> Result<Option<Line<'_>>, AllocError>
    ensures { IfOk result
        (λ found. MatchOption found (NoWords text.now)
        (λ l. IsLine text.now (texts l.words.items) l.rest.now)) }
{
    let mut words = Vec::new(alloc);
    let mut left = text;
    while !left.is_empty() {
        let next = match first_word(left) {
            Some(next) => next,
            None => return Ok(None),
        };
        words.push(next.word)?;
        left = next.rest;
        if next.last {
            return Ok(Some(Line { words, rest: left }));
        }
    }
    Ok(None)
}
