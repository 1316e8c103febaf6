//! Well-formed descriptions, in plain facts: what callers take of one is proved here, once, from its
//! having no fault. A function with an empty body whose contract is the law.

ghost use Rattle.std.specs.Prelude.{◌≡◌, List, None, ℕ};
ghost use Rattle.serde_json.specs.Data.{Data};
ghost use Rattle.def_desc.specs.Lawful.{IsLawful};
ghost use Rattle.def_desc.specs.Reading.{description_of};
ghost use Rattle.def_desc.specs.Rows.{DescRow};
ghost use Rattle.def_desc.specs.WellFormed.{WellFormed, fault_of};

/// The rows of a value without a fault, and so those of each well-formed description, keep every
/// limit, are named by names that stand once, name what is there, with rights that fit, and lie at
/// addresses that fit.
pub fn well_formed_is_lawful()
    ensures value { (d : Data) → fault_of d ≡ None → IsLawful (description_of d) }
    ensures bytes { (bytes : List ℕ) (rows : DescRow) → WellFormed bytes rows → IsLawful rows }
{}
