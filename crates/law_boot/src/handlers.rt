//! Which export a compartment's error handler is. It holds of any parts, sound or not.

ghost use Rattle.std.specs.Prelude.{◌≡◌, ℕ, Some, slice_get};
ghost use Rattle.def_machine.specs.Image.{handler_entry};
ghost use Rattle.def_image.specs.Parts.{GateRow, PartsRow};
ghost use Rattle.def_image.specs.Members.{compartment, gate_number, handler_name};
ghost use Rattle.def_boot.specs.Boot.{image_of};

/// A compartment's error handler is its export of the name `handler`; where it has none, no export has this name.
pub fn handlers_named()
    ensures some { (p : PartsRow) (b : ℕ) → (handler_entry (image_of p) b ≡ 0 → ⊥)
        → (j : ℕ) × (x : GateRow) × (slice_get (compartment p b).code.exports j ≡ Some x)
        × (x.name ≡ handler_name) × (handler_entry (image_of p) b ≡ gate_number p b j) }
    ensures none { (p : PartsRow) (b j : ℕ) (x : GateRow) → handler_entry (image_of p) b ≡ 0
        → slice_get (compartment p b).code.exports j ≡ Some x → x.name ≡ handler_name → ⊥ }
{}
