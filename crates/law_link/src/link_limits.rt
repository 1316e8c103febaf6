//! What a lawful description and its sources are linked to has no fault of an image, and is accepted when it is
//! written. A function with an empty body whose contract is the law.

ghost use Rattle.std.specs.Prelude.{◌≡◌, List, ℕ};
ghost use Rattle.def_desc.specs.Rows.{DescRow};
ghost use Rattle.def_image.specs.Accepted.{IsFaultless, IsImage, FaultAt};
ghost use Rattle.def_image.specs.Parts.{PartsRow};
ghost use Rattle.def_image.specs.Spelling.{image_bytes};
ghost use Rattle.def_link.specs.Links.{RowsLinkTo};

/// What lawful rows and their sources are linked to is faultless: it has a spelling, a version that is taken, and no
/// check of limits, regions, indexes or rights fails (`parts`). It is accepted when it is written: the bytes are the
/// image of these parts and of no others, and they have no fault (`image`, `alone`, `faultless`).
pub fn linked_is_accepted()
    ensures parts { (d : DescRow) (sources : List (List ℕ)) (p : PartsRow)
        → RowsLinkTo d sources p → IsFaultless p }
    ensures image { (d : DescRow) (sources : List (List ℕ)) (p : PartsRow)
        → RowsLinkTo d sources p → IsImage (image_bytes p) p }
    ensures alone { (d : DescRow) (sources : List (List ℕ)) (p q : PartsRow)
        → RowsLinkTo d sources p → IsImage (image_bytes p) q → q ≡ p }
    ensures faultless { (d : DescRow) (sources : List (List ℕ)) (p : PartsRow) (number place : ℕ)
        → RowsLinkTo d sources p → FaultAt (image_bytes p) number place → ⊥ }
{}
