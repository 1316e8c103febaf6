//! No access of a confined state meets what the machine hides, where no entry reaches it.

ghost use Rattle.std.specs.Prelude.{◌≡◌, ◌≤◌, ◌<◌, ◌⊎◌, ℕ, Some, true, false};
ghost use Rattle.def_confined.specs.Confined.{Confined};
ghost use Rattle.def_hidden.specs.Hidden.{Shut, is_hidden};
ghost use Rattle.def_machine.specs.Image.{Image, granule_of};
ghost use Rattle.def_machine.specs.State.{State, register, thread};
ghost use Rattle.def_words.specs.Authority.{cap_base, cap_top};
ghost use Rattle.def_words.specs.Permissions.{has, load_data, store_data};

/// In a confined state of a shut image no granule is hidden that the running thread may load or store through a
/// register, or that a thread may fetch from.
pub fn accesses_seen()
    ensures registers { (i : Image) (s : State) (t n x : ℕ)
        → Shut i → Confined i s → s.running ≡ Some t → i.ram ≤ x
        → (register (thread s t) n).tag ≡ true
        → (has (register (thread s t) n) load_data ≡ true)
        ⊎ (has (register (thread s t) n) store_data ≡ true)
        → cap_base (register (thread s t) n) ≤ x → x < cap_top (register (thread s t) n)
        → is_hidden i s.objects (granule_of i x) ≡ false }
    ensures fetches { (i : Image) (s : State) (t x : ℕ)
        → Shut i → Confined i s → i.ram ≤ x
        → (thread s t).pcc.tag ≡ true → cap_base (thread s t).pcc ≤ x → x < cap_top (thread s t).pcc
        → is_hidden i s.objects (granule_of i x) ≡ false }
{}
