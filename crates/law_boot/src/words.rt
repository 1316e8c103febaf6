//! What boot puts where.

ghost use Rattle.std.specs.Prelude.{◌+◌, ◌*◌, ◌≡◌, ◌⊎◌, Some, slice_get, ℕ};
ghost use Rattle.def_boot.specs.Contents.{boot_cap};
ghost use Rattle.def_boot.specs.Made.{boot_cap_of, return_sentry};
ghost use Rattle.def_image.specs.Members.{code_number, gate_address, globals_number, text_base};
ghost use Rattle.def_image.specs.Parts.{CodeRow, CompartmentRow, GateRow, PartsRow, SealedRow, SlotRow};
ghost use Rattle.def_image.specs.Sound.{Sound};
ghost use Rattle.def_image.specs.Spelling.{export_field};
ghost use Rattle.def_memory.specs.Granules.{plain};
ghost use Rattle.def_profile.specs.declared.layout.TheConstants.{GRANULE, SLOT_SIZE};
ghost use Rattle.def_boot.specs.Booting.{BootPuts, PutsBytes};
ghost use Rattle.def_boot.specs.Written.{IsBootWritten};
ghost use Rattle.def_boot.specs.Rows.{library_slot_number, slot_number};

/// What a sound image boots: in each slot the capability that was made for it, then the text; in an
/// export table the capabilities of code and globals, then the rows; in globals and sealed objects
/// their first bytes; and in the trusted region the return sentry. At any other granule a parts list
/// boots zeros (`zero`).
pub fn words_put()
    ensures slot { (p : PartsRow) → Sound p → (b j : ℕ) (c : CompartmentRow) (s : SlotRow)
        → slice_get p.compartments b ≡ Some c → slice_get c.code.slots j ≡ Some s
        → BootPuts p (c.code.base + SLOT_SIZE * j) (boot_cap_of p (slot_number p b j)) }
    ensures text { (p : PartsRow) → Sound p → (b : ℕ) (c : CompartmentRow)
        → slice_get p.compartments b ≡ Some c
        → PutsBytes p (text_base c.code) c.code.text }
    ensures code { (p : PartsRow) → Sound p → (b : ℕ) (c : CompartmentRow)
        → slice_get p.compartments b ≡ Some c
        → BootPuts p c.table (boot_cap_of p (code_number p b)) }
    ensures globals { (p : PartsRow) → Sound p → (b : ℕ) (c : CompartmentRow)
        → slice_get p.compartments b ≡ Some c
        → BootPuts p (c.table + GRANULE) (boot_cap_of p (globals_number p b)) }
    ensures export { (p : PartsRow) → Sound p → (b j : ℕ) (c : CompartmentRow) (x : GateRow)
        → slice_get p.compartments b ≡ Some c → slice_get c.code.exports j ≡ Some x
        → PutsBytes p (gate_address c j) (export_field x.row) }
    ensures initial { (p : PartsRow) → Sound p → (b : ℕ) (c : CompartmentRow)
        → slice_get p.compartments b ≡ Some c → PutsBytes p c.globals c.initial }
    ensures library_slot { (p : PartsRow) → Sound p → (l j : ℕ) (c : CodeRow) (s : SlotRow)
        → slice_get p.libraries l ≡ Some c → slice_get c.slots j ≡ Some s
        → BootPuts p (c.base + SLOT_SIZE * j) (boot_cap_of p (library_slot_number p l j)) }
    ensures library_text { (p : PartsRow) → Sound p → (l : ℕ) (c : CodeRow)
        → slice_get p.libraries l ≡ Some c → PutsBytes p (text_base c) c.text }
    ensures sealed { (p : PartsRow) → Sound p → (n : ℕ) (s : SealedRow)
        → slice_get p.sealed n ≡ Some s → PutsBytes p s.base s.bytes }
    ensures sentry { (p : PartsRow) → Sound p → BootPuts p p.trusted return_sentry }
    ensures zero { (p : PartsRow) (x : ℕ) → IsBootWritten p x ⊎ (boot_cap p x ≡ plain 0) }
{}
