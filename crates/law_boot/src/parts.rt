//! Where the parts of a sound image lie, and what boot makes of them.

ghost use Rattle.std.specs.Prelude.{◌+◌, ◌≡◌, Some, slice_get, ℕ};
ghost use Rattle.ct_entry.specs.declared.rows.Owner.TheVariants as owner;
ghost use Rattle.def_boot.specs.Entries.{code_row, globals_row, stack_row};
ghost use Rattle.def_boot.specs.Made.{return_sentry};
ghost use Rattle.def_image.specs.Members.{code_number, globals_number, stack_number};
ghost use Rattle.def_image.specs.Parts.{CodeRow, CompartmentRow, PartsRow, SealedRow, SharedRow, SlotRow, ThreadRow};
ghost use Rattle.def_image.specs.Regions.{table_length, trusted_length};
ghost use Rattle.def_image.specs.Sound.{Sound};
ghost use Rattle.def_profile.specs.declared.native.TheConstants.{NATIVE_LENGTH, RETURN_ENTRY};
ghost use Rattle.def_profile.specs.declared.rights.TheConstants.{SERVICE_RIGHTS};
ghost use Rattle.def_profile.specs.declared.seals.TheConstants.{RETURN_ENABLE};
ghost use Rattle.def_boot.specs.Fits.{Lies, MadeAs, MadeFor};
ghost use Rattle.def_boot.specs.Rows.{library_slot_number, slot_number, slot_row_at};

/// Each part lies in RAM below the heap, with bounds that a word can spell.
pub fn parts_lie()
    ensures trusted { (p : PartsRow) → Sound p → Lies p p.trusted (trusted_length p) }
    ensures code { (p : PartsRow) → Sound p → (b : ℕ) (c : CompartmentRow)
        → slice_get p.compartments b ≡ Some c → Lies p c.code.base c.code.length }
    ensures table { (p : PartsRow) → Sound p → (b : ℕ) (c : CompartmentRow)
        → slice_get p.compartments b ≡ Some c → Lies p c.table (table_length c) }
    ensures globals { (p : PartsRow) → Sound p → (b : ℕ) (c : CompartmentRow)
        → slice_get p.compartments b ≡ Some c → Lies p c.globals c.globals_length }
    ensures library { (p : PartsRow) → Sound p → (l : ℕ) (c : CodeRow)
        → slice_get p.libraries l ≡ Some c → Lies p c.base c.length }
    ensures shared { (p : PartsRow) → Sound p → (n : ℕ) (s : SharedRow)
        → slice_get p.shared n ≡ Some s → Lies p s.base s.length }
    ensures sealed { (p : PartsRow) → Sound p → (n : ℕ) (s : SealedRow)
        → slice_get p.sealed n ≡ Some s → Lies p s.base s.length }
    ensures stack { (p : PartsRow) → Sound p → (t : ℕ) (x : ThreadRow)
        → slice_get p.threads t ≡ Some x → Lies p x.stack x.stack_length }
{}

/// What boot makes is tagged, and has exactly the range and the rights that the entry says: code,
/// globals and each slot at the base or at the named code, a stack at its top, the return sentry of
/// type 5. Slots are sealed by their kind.
pub fn makes_stand()
    ensures code { (p : PartsRow) → Sound p → (b : ℕ) (c : CompartmentRow)
        → slice_get p.compartments b ≡ Some c
        → MadeFor p (code_number p b) (code_row (owner.Compartment b) c.code) }
    ensures globals { (p : PartsRow) → Sound p → (b : ℕ) (c : CompartmentRow)
        → slice_get p.compartments b ≡ Some c
        → MadeFor p (globals_number p b) (globals_row b c) }
    ensures slot { (p : PartsRow) → Sound p → (b : ℕ) (c : CompartmentRow) (j : ℕ) (s : SlotRow)
        → slice_get p.compartments b ≡ Some c → slice_get c.code.slots j ≡ Some s
        → MadeFor p (slot_number p b j) (slot_row_at p (owner.Compartment b) c.code j s.row) }
    ensures library_slot { (p : PartsRow) → Sound p → (l : ℕ) (c : CodeRow) (j : ℕ) (s : SlotRow)
        → slice_get p.libraries l ≡ Some c → slice_get c.slots j ≡ Some s
        → MadeFor p (library_slot_number p l j) (slot_row_at p (owner.Library l) c j s.row) }
    ensures stack { (p : PartsRow) → Sound p → (t : ℕ) (x : ThreadRow)
        → slice_get p.threads t ≡ Some x → MadeFor p (stack_number p t) (stack_row t x) }
    ensures sentry { MadeAs 0 RETURN_ENTRY (RETURN_ENTRY + NATIVE_LENGTH) SERVICE_RIGHTS
        RETURN_ENTRY RETURN_ENABLE return_sentry }
{}
