//! That the laws of linking speak of something: the samples are lawful and are linked. A function
//! with an empty body whose contract is the law.
#![tactic(auto)]

mod samples;

ghost use Rattle.std.specs.Prelude.{[], ◌∷◌};
ghost use Rattle.def_image.specs.Parts.{PartsRow};
ghost use Rattle.law_image_samples.specs.Tiny.{tiny};
ghost use Rattle.def_link.specs.Links.{RowsLinkTo};
ghost use Rattle.law_link_samples.specs.Samples.{tiny_rows, filed, tiny_source, board_rows, board_sources};

pub use samples::samples_are_linked;

/// The smallest sample is lawful and is linked to the parts of its image, by its words and by their
/// source; and so is the sample with two compartments, a library and two threads, to some parts.
pub fn samples_link()
    ensures words { RowsLinkTo tiny_rows [] tiny }
    ensures source { RowsLinkTo filed (tiny_source ∷ []) tiny }
    ensures board { (p : PartsRow) × RowsLinkTo board_rows board_sources p }
{}
