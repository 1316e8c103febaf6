//! The numbers of an image: the sizes of its parts, and its kinds.

ghost use Rattle.std.specs.Prelude.{◌≡◌, [], ◌∷◌, map, true, false};
ghost use Rattle.ct_entry.specs.declared.hardware.DeviceKind.TheVariants as device;
ghost use Rattle.ct_entry.specs.declared.rows.Mode.TheVariants as mode;
ghost use Rattle.def_image.specs.declared.SlotKind.TheVariants as kind;
ghost use Rattle.def_image.specs.declared.format.TheConstants as format;
ghost use Rattle.ct_entry.specs.DeviceKinds.{device_number};
ghost use Rattle.def_image.specs.Spelling.{kind_byte, magic, passes_byte, posture_byte};

/// Bytes of an image's parts: header, device, shared object, and of sealed object, compartment and
/// library what stands before their bytes and tables; a slot or export; a thread. The first four bytes.
/// And kinds of slots and devices, postures, and what exports pass, as an image has them.
pub fn numbers_in_images()
    ensures header { format.HEADER ≡ 84 }
    ensures objects { format.DEVICE ∷ format.SHARED ∷ format.SEALED_HEAD ∷ [] ≡ 40 ∷ 40 ∷ 48 ∷ [] }
    ensures owners { format.COMPARTMENT_HEAD ∷ format.LIBRARY_HEAD ∷ format.THREAD ∷ []
        ≡ 68 ∷ 52 ∷ 56 ∷ [] }
    ensures entry { format.ENTRY ≡ 48 }
    ensures magic { magic ≡ 0x43 ∷ 0x54 ∷ 0x46 ∷ 0x57 ∷ [] }
    ensures slot_kinds { map kind_byte
        (kind.Service ∷ kind.Device ∷ kind.Shared ∷ kind.Sealed ∷ kind.Call ∷ kind.Library
        ∷ kind.Quota ∷ kind.Key ∷ [])
        ≡ 1 ∷ 2 ∷ 3 ∷ 4 ∷ 5 ∷ 6 ∷ 7 ∷ 8 ∷ [] }
    ensures device_kinds { map device_number (device.Uart ∷ device.Timer ∷ device.Gpio ∷ [])
        ≡ 1 ∷ 2 ∷ 3 ∷ [] }
    ensures postures { map posture_byte (mode.Inherit ∷ mode.Disabled ∷ mode.Enabled ∷ [])
        ≡ 1 ∷ 2 ∷ 3 ∷ [] }
    ensures passes { map passes_byte (true ∷ false ∷ []) ≡ 1 ∷ 2 ∷ [] }
{}
