//! Bytes are judged in one way: as a description of one list of rows, or by one fault.

ghost use Rattle.std.specs.Prelude.{◌≡◌, ◌⊎◌, ℕ, List};
ghost use Rattle.def_desc.specs.declared.faults.Fault.{Fault as FaultRow};
ghost use Rattle.def_desc.specs.Rows.{DescRow};
ghost use Rattle.def_desc.specs.WellFormed.{WellFormed, IsFaulty};
ghost use Rattle.def_desc.specs.Described.{IsDescribed, DescriptionHasFault};

/// Any bytes are a well-formed description or have a fault (`one`), and never both (`not_both`). A
/// description stands for one list of rows (`same_rows`), and bytes have one fault (`same_fault`).
pub fn one_or_the_other()
    ensures one { (bytes : List ℕ) → IsDescribed bytes ⊎ DescriptionHasFault bytes }
    ensures not_both { (bytes : List ℕ) (rows : DescRow) (f : FaultRow)
        → WellFormed bytes rows → IsFaulty bytes f → ⊥ }
    ensures same_rows { (bytes : List ℕ) (rows others : DescRow)
        → WellFormed bytes rows → WellFormed bytes others → rows ≡ others }
    ensures same_fault { (bytes : List ℕ) (f other : FaultRow)
        → IsFaulty bytes f → IsFaulty bytes other → f ≡ other }
{}
