//! The law of deeds: in a confined state what the running thread uses is authority of a root whose owner reaches its
//! compartment, within the root's range and rights; so calls, device accesses, allocations, frees and spans with
//! interrupts off are licensed.

ghost use Rattle.std.specs.Prelude.{◌≡◌, ℕ, List, ◌∷◌, true};
ghost use Rattle.def_profile.specs.declared.seals.TheConstants.{EXPORT_TYPE};
ghost use Rattle.def_words.specs.Permissions.{load_data, store_data};
ghost use Rattle.def_words.specs.Seals.{cap_seal};
ghost use Rattle.ct_entry.specs.declared.acts.Act.TheVariants.{Call, Load, Store, Allocate, Free};
ghost use Rattle.def_machine.specs.Image.{Image, root};
ghost use Rattle.def_machine.specs.State.{State, Frame, register, thread};
ghost use Rattle.def_machine.specs.Objects.{charges};
ghost use Rattle.def_confined.specs.Confined.{Confined};
ghost use Rattle.def_confined.specs.Licensed.{Licensed, OffLicensed};
ghost use Rattle.def_confined.specs.Uses.{GatesOfExports, HoldsTagged, Accesses, Charges, deed_by, span_of};

/// Deeds through a register are licensed, with its root as entry and the thread's top frame as actor. Live charges are
/// those of the state after the deed. And a thread whose interrupts are off holds them by an export that may (`span`).
pub fn deeds_licensed()
    ensures call { (i : Image) (s : State) (t n : ℕ) (f : Frame) (fs : List Frame)
        → Confined i s → HoldsTagged s t n f fs → cap_seal (register (thread s t) n) ≡ EXPORT_TYPE
        → Licensed i.entries (deed_by s t n f
        (Call (root i (register (thread s t) n).shadow.root).of)) }
    ensures load { (i : Image) (s : State) (t n address width value : ℕ)
        (f : Frame) (fs : List Frame)
        → Confined i s → Accesses i s t n load_data address width f fs
        → Licensed i.entries (deed_by s t n f (Load address width value)) }
    ensures store { (i : Image) (s : State) (t n address width value : ℕ)
        (f : Frame) (fs : List Frame)
        → Confined i s → Accesses i s t n store_data address width f fs
        → Licensed i.entries (deed_by s t n f (Store address width value)) }
    ensures allocate { (i : Image) (s after : State) (t n number base long : ℕ)
        (f : Frame) (fs : List Frame)
        → Confined i s → Confined i after → Charges i s t n f fs
        → Licensed i.entries (deed_by s t n f (Allocate number base long
        (charges (register (thread s t) n).shadow.root after.objects))) }
    ensures free { (i : Image) (s after : State) (t n number base long : ℕ)
        (f : Frame) (fs : List Frame)
        → Confined i s → Confined i after → Charges i s t n f fs
        → Licensed i.entries (deed_by s t n f (Free number base long
        (charges (register (thread s t) n).shadow.root after.objects))) }
    ensures span { (i : Image) (s : State) (t : ℕ) (f : Frame) (fs : List Frame)
        → GatesOfExports i → Confined i s → (thread s t).frames ≡ f ∷ fs
        → (thread s t).posture.off ≡ true
        → OffLicensed i.entries (span_of s t f) }
{}
