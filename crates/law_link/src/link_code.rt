//! The code of what lawful rows and their sources are linked to. A function with an empty body
//! whose contract is the law.

ghost use Rattle.std.specs.Prelude.{◌≡◌, List, ℕ, Some, slice_get};
ghost use Rattle.def_desc.specs.Rows.{DescCompartment, LibraryRow, DescRow};
ghost use Rattle.def_image.specs.Parts.{CodeRow as CodePart, CompartmentRow as CompartmentPart, PartsRow};
ghost use Rattle.def_link.specs.Links.{RowsLinkTo};
ghost use Rattle.def_link.specs.Code.{CompartmentCode, LibraryCode};

/// Compartment i and library i of what is linked have the text, the initial bytes and the places of
/// exports that their row and their own source are built to.
pub fn code_is_built()
    ensures compartments { (d : DescRow) (sources : List (List ℕ)) (p : PartsRow) (i : ℕ)
        (row : DescCompartment) (c : CompartmentPart)
        → RowsLinkTo d sources p
        → slice_get d.compartments i ≡ Some row
        → slice_get p.compartments i ≡ Some c
        → CompartmentCode d sources i row c }
    ensures libraries { (d : DescRow) (sources : List (List ℕ)) (p : PartsRow) (i : ℕ)
        (row : LibraryRow) (c : CodePart)
        → RowsLinkTo d sources p
        → slice_get d.libraries i ≡ Some row
        → slice_get p.libraries i ≡ Some c
        → LibraryCode d sources i row c }
{}
