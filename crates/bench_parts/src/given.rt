//! The words that a measure is given.

/// The word at a place; the empty word where there is none.
pub fn word<'a>(words: &'a [String], place: usize) -> &'a str {
    match words.get(place) {
        Some(word) => word.as_str(),
        None => "",
    }
}

/// The number that the word at a place is; 0 where it is none.
pub fn number(words: &[String], place: usize) -> u32 {
    match word(words, place).parse() {
        Ok(number) => number,
        Err(_) => 0,
    }
}
