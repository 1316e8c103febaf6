//! How many codes of a description are files, and whether there is one text for each.

ghost use Rattle.std.specs.Prelude.{◌≡◌, ◌^◌, ◌↔◌, IsTrue, length, nat_lt};
ghost use Rattle.std.specs.List.{list_all};
ghost use Rattle.def_link.specs.Owners.{units_of};
ghost use Rattle.ct_link_objects.specs.Objects.{AreSourced, file_of, files_of};

use crate::owners::{owner_count, owner_row};
use crate::sources::Sources;
use ct_desc_rows::{Code, Desc};

/// How many texts a code takes.
pub(crate) fn files_in(code: &Code) -> usize
    ensures { result ≡ file_of code.now.file }
{
    match code.file {
        None => 0,
        Some(_) => 1,
    }
}

/// How many texts the codes of a description take.
fn file_count(desc: &Desc) -> usize
    ensures { result ≡ files_of (units_of desc.now) }
{
    let mut files = 0;
    for owner in 0..owner_count(desc) {
        files += files_in(owner_row(desc, owner).code());
    }
    files
}

/// Whether a text has fewer than 2 to the 32 bytes.
fn is_short(text: &[u8]) -> bool
    ensures { result ≡ nat_lt (length text.now) (2 ^ 32) }
{
    text.len() < 1 << 32
}

/// Whether each text has fewer than 2 to the 32 bytes.
fn are_short(texts: &[Vec<u8>]) -> bool
    ensures { result ≡ list_all (λ t. nat_lt (length t.items) (2 ^ 32)) texts.now }
{
    texts.iter().all(|text| is_short(text.as_slice()))
}

/// Whether there is one text for each code of a description that is a file, and each text has fewer
/// than 2 to the 32 bytes: what linking asks of the sources.
#[tactic(auto, using(crate::proofs::Counts::miscounted))]
pub fn are_sourced(desc: &Desc, sources: &Sources) -> bool
    ensures { IsTrue result ↔ AreSourced desc.now sources.now }
{
    let texts = sources.texts.as_slice();
    texts.len() == file_count(desc) && are_short(texts)
}
