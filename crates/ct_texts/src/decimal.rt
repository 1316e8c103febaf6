//! Numbers in decimal, read from their digits (definition in def_texts). Scripts, policies and the
//! words of the command line have their numbers from here.

ghost use Rattle.std.specs.Prelude.{ℕ, ◌≡◌, ◌<◌, ◌≤◌, ◌^◌, IfSome, MatchOption, bytes_eq, decimal};
ghost use Rattle.def_texts.specs.Digits.{number_within};

use itoa::Buffer;

/// Whether these are a number's decimal digits.
fn is_spelled(number: u64, digits: &[u8]) -> bool
    ensures { result ≡ bytes_eq (decimal number) digits.now }
{
    let mut buffer = Buffer::new();
    buffer.format(number).as_bytes() == digits
}

/// The number of 64 bits whose decimal digits these are.
fn number_spelled(digits: &[u8]) -> Option<u64>
    ensures { MatchOption result ((n : ℕ) → n < 2 ^ 64 → decimal n ≡ digits.now → ⊥)
        (λ n. decimal n ≡ digits.now) }
{
    let number: u64 = match std::str::from_utf8(digits) {
        Ok(text) => match text.parse() {
            Ok(number) => number,
            Err(_) => return None,
        },
        Err(_) => return None,
    };
    if is_spelled(number, digits) {
        Some(number)
    } else {
        None
    }
}

/// The number, at most `most`, whose decimal digits these are, with no sign and no leading zero.
#[tactic(auto, using(crate::proofs::Numbers::no_number, crate::proofs::Numbers::number_is, crate::proofs::Numbers::too_many))]
pub fn number_of(digits: &[u8], most: u64) -> Option<u64>
    ensures small { IfSome result (λ n. n ≤ most) }
    ensures number { result ≡ number_within most digits.now }
{
    match number_spelled(digits) {
        Some(number) => { if number <= most { Some(number) } else { None } }
        None => None,
    }
}
