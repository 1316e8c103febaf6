//! Laws of an image's entries: what each entry number stands for, and that the members of its lists
//! have their rows and gates under the numbers that are reckoned for them. They hold of any parts,
//! sound or not. Functions with empty bodies whose contracts are the laws.

ghost use Rattle.std.specs.Prelude.{◌≡◌, ◌+◌, ℕ, Some, slice_get};
ghost use Rattle.def_image.specs.Parts.{CodeRow, CompartmentRow, PartsRow, ThreadRow};
ghost use Rattle.def_boot.specs.Rows.{EntryIs, HasCompartment, HasLibrary, HasStack};

/// Each number is nothing, the trusted part, or one row of a compartment, of a library or of a
/// thread's stack; and each compartment, library and thread has its rows, and each export its gate,
/// under the numbers that are reckoned for them.
pub fn entries_are()
    ensures entry { (p : PartsRow) (n : ℕ) → EntryIs p n }
    ensures compartment { (p : PartsRow) (b : ℕ) (c : CompartmentRow)
        → slice_get p.compartments b ≡ Some c → HasCompartment p b c }
    ensures library { (p : PartsRow) (l : ℕ) (c : CodeRow)
        → slice_get p.libraries l ≡ Some c → HasLibrary p l c }
    ensures stack { (p : PartsRow) (t : ℕ) (x : ThreadRow)
        → slice_get p.threads t ≡ Some x → HasStack p t x }
{}
