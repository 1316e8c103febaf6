//! The texts of which one stands at a member of a description, and what each says. A table says nothing
//! of a text that it hasn't, so the count of its rows with what each of them says is all of it.

ghost use Rattle.std.specs.Prelude.{◌≡◌, [], ◌∷◌, Some, map, length, codes};
ghost use Rattle.ct_entry.specs.declared.hardware.DeviceKind.TheVariants.{Uart, Timer, Gpio};
ghost use Rattle.ct_entry.specs.declared.hardware.TheConstants.{DEVICE_KINDS};
ghost use Rattle.ct_entry.specs.DeviceKinds.{kind_text};
ghost use Rattle.ct_entry.specs.declared.rows.Mode.TheVariants.{Inherit, Disabled, Enabled};
ghost use Rattle.def_desc.specs.declared.tables.Passes.TheVariants.{Capabilities, Data};
ghost use Rattle.def_desc.specs.declared.tables.TheConstants.{POSTURES, LIBRARY_POSTURES, PASSES, SERVICES, QUANTUM};
ghost use Rattle.def_desc.specs.Tables.{device_kind_named, posture_of, library_posture_of, passes_of, service_of, form_names, righted_names, code_names, device_rights, shared_rights};

/// Kinds of devices, postures, what exports pass, the members of which an import and a code have one,
/// rights by letters, the quantum where none is given, and the services that an import may name, by the
/// numbers of their routines.
#[tactic(auto, unfolding(def_desc::specs::Tables::device_kind_named, def_desc::specs::Tables::posture_of, def_desc::specs::Tables::library_posture_of, def_desc::specs::Tables::passes_of, def_desc::specs::Tables::form_names, def_desc::specs::Tables::righted_names, def_desc::specs::Tables::code_names, def_desc::specs::Tables::device_rights, def_desc::specs::Tables::shared_rights, def_desc::specs::Tables::service_of))]
pub fn choices_of_descriptions()
    ensures kinds { map device_kind_named (codes "uart" ∷ codes "timer" ∷ codes "gpio" ∷ [])
        ≡ Some Uart ∷ Some Timer ∷ Some Gpio ∷ [] }
    ensures kind_names { map kind_text (Uart ∷ Timer ∷ Gpio ∷ [])
        ≡ codes "uart" ∷ codes "timer" ∷ codes "gpio" ∷ [] }
    ensures no_other_kind { length DEVICE_KINDS ≡ 3 }
    ensures postures { map posture_of (codes "enabled" ∷ codes "disabled" ∷ [])
        ≡ Some Enabled ∷ Some Disabled ∷ [] }
    ensures no_other_posture { length POSTURES ≡ 2 }
    ensures library_postures { map library_posture_of
        (codes "inherit" ∷ codes "enabled" ∷ codes "disabled" ∷ [])
        ≡ Some Inherit ∷ Some Enabled ∷ Some Disabled ∷ [] }
    ensures no_other_library_posture { length LIBRARY_POSTURES ≡ 3 }
    ensures passes { map passes_of (codes "capabilities" ∷ codes "data" ∷ [])
        ≡ Some Capabilities ∷ Some Data ∷ [] }
    ensures passes_no_other { length PASSES ≡ 2 }
    ensures forms { form_names ≡ codes "device" ∷ codes "shared" ∷ codes "sealed"
        ∷ codes "call" ∷ codes "service" ∷ codes "library" ∷ [] }
    ensures righted { righted_names ≡ codes "device" ∷ codes "shared" ∷ [] }
    ensures code { code_names ≡ codes "words" ∷ codes "file" ∷ [] }
    ensures device { device_rights ≡ codes "R" ∷ codes "W" ∷ codes "RW" ∷ [] }
    ensures shared { shared_rights ≡ codes "R" ∷ codes "W" ∷ codes "RW"
        ∷ codes "RC" ∷ codes "WC" ∷ codes "RWC" ∷ [] }
    ensures quantum { QUANTUM ≡ 100 }
    ensures turn_services { map service_of
        (codes "yield" ∷ codes "sleep" ∷ codes "wait" ∷ codes "wake" ∷ [])
        ≡ Some 2 ∷ Some 3 ∷ Some 4 ∷ Some 5 ∷ [] }
    ensures heap_services { map service_of
        (codes "allocate" ∷ codes "free" ∷ codes "remaining" ∷ [])
        ≡ Some 6 ∷ Some 7 ∷ Some 8 ∷ [] }
    ensures token_services { map service_of
        (codes "token_key" ∷ codes "token_new" ∷ codes "token_open" ∷ codes "token_free" ∷ [])
        ≡ Some 9 ∷ Some 10 ∷ Some 11 ∷ Some 12 ∷ [] }
    ensures no_other_service { length SERVICES ≡ 11 }
{}
