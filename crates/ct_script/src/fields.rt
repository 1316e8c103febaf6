//! The parts of a line: numbers and names, each before the byte that ends it.

ghost use Rattle.std.specs.Prelude.{ℕ, ◌≡◌, ◌+◌, ◌<◌, ◌≤◌, ◌^◌, ◌++◌, ◌∷◌, length, take, drop, decimal, false, MatchOption, slice_index_or};
ghost use Rattle.std.specs.List.{list_all, prefix_len};
ghost use Rattle.def_script.specs.Script.{is_field_byte, NoScriptLine, BeginsWithRow};
ghost use Rattle.ct_script.specs.Fields.{IsNumber, NoNumber, IsName, NoName, row_of};

use ct_texts::number_of;
use def_profile::limits::MOST_STEPS;

/// A number, and what follows its end.
#[derive(Clone, Copy)]
pub(crate) struct Counted<'a> {
    pub number: u32,
    pub rest: &'a [u8],
}

/// A name, and what follows its end.
#[derive(Clone, Copy)]
pub(crate) struct Named<'a> {
    pub name: &'a [u8],
    pub rest: &'a [u8],
}

/// What a line says, and what follows it.
#[derive(Clone, Copy)]
pub(crate) struct Line<'a> {
    pub step: u32,
    pub name: &'a [u8],
    pub byte: u8,
    pub rest: &'a [u8],
}

/// Neither a space nor a line feed.
fn is_inner(byte: u8) -> bool
    ensures { result ≡ is_field_byte byte }
{
    byte != b' ' && byte != b'\n'
}

/// How many bytes stand before the first space or line feed.
fn run_length(text: &[u8]) -> usize
    ensures is { result ≡ prefix_len is_field_byte text.now }
    ensures within { result ≤ length text.now }
{
    text.iter().take_while(|byte| is_inner(**byte)).count()
}

/// The number below 2 to the 32 whose decimal digits these are.
#[tactic(auto, using(crate::proofs::Parts::no_small, crate::proofs::Parts::small_is))]
fn small_number_of(digits: &[u8]) -> Option<u32>
    ensures { MatchOption result ((n : ℕ) → n < 2 ^ 32 → decimal n ≡ digits.now → ⊥)
        (λ n. decimal n ≡ digits.now) }
{
    match number_of(digits, u32::MAX as u64) {
        Some(number) => Some(number as u32),
        None => None,
    }
}

/// The number before a space or a line feed, where that is the byte `end`.
#[tactic(auto, using(crate::proofs::Parts::endless, crate::proofs::Parts::other_end, crate::proofs::Parts::no_digits, crate::proofs::Parts::number_is))]
fn number_before(text: &[u8], end: u8) -> Option<Counted<'_>>
    requires { is_field_byte end ≡ false }
    ensures { MatchOption result (NoNumber text.now end)
        (λ c. IsNumber text.now end c.number c.rest.now) }
{
    let place = run_length(text);
    if place == text.len() {
        return None;
    }
    if text[place] != end {
        return None;
    }
    match small_number_of(&text[..place]) {
        Some(number) => Some(Counted {
            number,
            rest: &text[place + 1..],
        }),
        None => None,
    }
}

/// The name before a space.
#[tactic(auto, using(crate::proofs::Parts::no_front, crate::proofs::Parts::no_space, crate::proofs::Parts::other_byte, crate::proofs::Parts::name_is))]
fn name_before(text: &[u8]) -> Option<Named<'_>>
    ensures { MatchOption result (NoName text.now) (λ n. IsName text.now n.name.now n.rest.now) }
{
    let place = run_length(text);
    if place == 0 {
        return None;
    }
    if place == text.len() {
        return None;
    }
    if text[place] != b' ' {
        return None;
    }
    Some(Named {
        name: &text[..place],
        rest: &text[place + 1..],
    })
}

/// The line at the front of a text.
#[tactic(auto, using(crate::proofs::Parts::no_step, crate::proofs::Parts::no_count, crate::proofs::Parts::too_many, crate::proofs::Parts::no_name, crate::proofs::Parts::no_byte, crate::proofs::Parts::bad_byte, crate::proofs::Parts::line_is))]
pub(crate) fn first_line(text: &[u8]) -> Option<Line<'_>>
    requires { 0 < length text.now }
    ensures { MatchOption result (NoScriptLine text.now)
        (λ l. BeginsWithRow text.now (row_of l.step l.name.now l.byte) l.rest.now) }
{
    let step = match number_before(text, b' ') {
        Some(step) => step,
        None => return None,
    };
    if step.number == 0 {
        return None;
    }
    if step.number > MOST_STEPS {
        return None;
    }
    let name = match name_before(step.rest) {
        Some(name) => name,
        None => return None,
    };
    let byte = match number_before(name.rest, b'\n') {
        Some(byte) => byte,
        None => return None,
    };
    if byte.number > 255 {
        return None;
    }
    Some(Line {
        step: step.number,
        name: name.name,
        byte: byte.number as u8,
        rest: byte.rest,
    })
}
