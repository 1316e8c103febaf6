//! The hash key of a source's labels.

ghost use Rattle.std.specs.Prelude.{◌≡◌, ◌++◌, List, ℕ};
ghost use Rattle.sha2.specs.Hashers.{Holds256};
ghost use Rattle.ct_keyed.specs.Keys.{key_of};
ghost use Rattle.ct_source.specs.Views.{statements_view};
ghost use Rattle.ct_source.specs.Compact.{compact_part};
ghost use Rattle.ct_asm.specs.Labels.{label_line, label_lines};

use ct_keyed::HashKey;
use ct_source::compact::{CompactPart, CompactStatement};
use sha2::{Digest, Sha256};

/// Adds the line of the label that a statement is.
fn add_line(hasher: &mut Sha256, part: CompactPart<'_>)
    ensures { (m : List ℕ) → Holds256 hasher.old m
        → Holds256 hasher.new (m ++ label_line (compact_part part.entry)) }
{
    if let CompactPart::Label { name } = part {
        hasher.update(name);
        hasher.update(b"\n");
    }
}

/// The key of the labels of a source: of their names in order, each on a line of its own, so that the same letters cut
/// into other names are another text.
pub(crate) fn key_of_labels(statements: &[CompactStatement<'_>]) -> HashKey
    ensures { result ≡ key_of (label_lines (statements_view statements.now)) }
{
    let mut hasher = Sha256::new();
    for s in statements {
        add_line(&mut hasher, s.part);
    }
    HashKey::of_digest(hasher.finalize())
}
