//! That the generated firmware is well-formed and links, whatever number it is generated from: its sources are taken
//! by the assembler, and its regions fit RAM. A function with an empty body whose contract is the law.

ghost use Rattle.std.specs.Prelude.{◌≡◌, ◌<◌, ◌^◌, ℕ, List, None, length};
ghost use Rattle.std.specs.List.{AllByRecursion};
ghost use Rattle.def_desc.specs.Reading.{description_of};
ghost use Rattle.def_desc.specs.WellFormed.{fault_of};
ghost use Rattle.def_gen.specs.Description.{firmware};
ghost use Rattle.def_gen.specs.Numbers.{count_of};
ghost use Rattle.def_gen.specs.Sources.{sources};
ghost use Rattle.def_image.specs.Parts.{PartsRow};
ghost use Rattle.def_link.specs.Links.{RowsLinkTo};

/// The description of a generated firmware has no fault (`well_formed`). It and the sources are linked to the parts of
/// an image (`links`); there is a source for each compartment (`each`), of bytes that 32 bits count (`short`).
pub fn generated_links()
    ensures well_formed { (seed : ℕ) → fault_of (firmware seed) ≡ None }
    ensures links { (seed : ℕ)
        → (p : PartsRow) × RowsLinkTo (description_of (firmware seed)) (sources seed) p }
    ensures each { (seed : ℕ) → length (sources seed) ≡ count_of seed }
    ensures short { (seed : ℕ)
        → AllByRecursion (λ (t : List ℕ). length t < 2 ^ 32) (sources seed) }
{}
