//! What lawful rows are linked to, in terms of rows and placement: regions are placed one after
//! another, and names and slots are those of the rows. Functions with empty bodies whose contracts
//! are the laws.

ghost use Rattle.std.specs.Prelude.{◌≡◌, List, ℕ, map};
ghost use Rattle.def_desc.specs.Rows.{DescCompartment, LibraryRow, DescRow};
ghost use Rattle.def_image.specs.Parts.{CodeRow as CodePart, CompartmentRow as CompartmentPart, PartsRow};
ghost use Rattle.def_layout.specs.Placement.{placed, last_end};
ghost use Rattle.def_link.specs.Slots.{compartment_slots, library_slots};
ghost use Rattle.def_link.specs.Links.{RowsLinkTo};
ghost use Rattle.def_link.specs.Places.{places, sizes};

/// The regions of what is linked are the placement of their sizes from RAM's base on: code, export
/// table and globals of each compartment, the code of each library, shared objects, sealed ones,
/// the threads' stacks, the trusted region. The heap begins where the last of them ends.
pub fn regions_are_placed()
    ensures places { (d : DescRow) (sources : List (List ℕ)) (p : PartsRow)
        → RowsLinkTo d sources p → places p ≡ placed d.ram.base (sizes d p) }
    ensures heap { (d : DescRow) (sources : List (List ℕ)) (p : PartsRow)
        → RowsLinkTo d sources p → p.heap ≡ last_end d.ram.base (sizes d p) }
{}

/// Each compartment and each library has its row's name, and the slots that its row stands for.
pub fn rows_are_kept()
    ensures compartments { (d : DescRow) (sources : List (List ℕ)) (p : PartsRow)
        → RowsLinkTo d sources p
        → map (λ (c : CompartmentPart). c.code.name) p.compartments
        ≡ map (λ (c : DescCompartment). c.name) d.compartments }
    ensures slots { (d : DescRow) (sources : List (List ℕ)) (p : PartsRow)
        → RowsLinkTo d sources p
        → map (λ (c : CompartmentPart). c.code.slots) p.compartments
        ≡ map (compartment_slots d) d.compartments }
    ensures libraries { (d : DescRow) (sources : List (List ℕ)) (p : PartsRow)
        → RowsLinkTo d sources p
        → map (λ (c : CodePart). c.name) p.libraries
        ≡ map (λ (l : LibraryRow). l.name) d.libraries }
    ensures library_slots { (d : DescRow) (sources : List (List ℕ)) (p : PartsRow)
        → RowsLinkTo d sources p
        → map (λ (c : CodePart). c.slots) p.libraries ≡ map (library_slots d) d.libraries }
{}
