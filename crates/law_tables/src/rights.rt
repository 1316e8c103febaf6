//! The rights of each kind of report entry, by the names of permissions, and those of the roots.

ghost use Rattle.std.specs.Prelude.{◌≡◌, [], ◌∷◌, map, codes};
ghost use Rattle.def_profile.specs.declared.rights.TheConstants as right;
ghost use Rattle.def_image.specs.Rights.{device_right_sets, carrying_rights};
ghost use Rattle.def_report.specs.Rights.{rights_text};

/// The twelve permissions in bit order, and what boot makes: code, globals and stacks; services, sealed
/// objects, exports, quotas and keys; and what an allocation gives. The rights that a device's import may
/// have, R, W and RW, and those that a shared object's may have besides, RC, WC and RWC. And the high words
/// of the three roots.
#[tactic(auto, unfolding(def_report::specs::Rights::rights_text))]
pub fn rights_of_kinds()
    ensures bits { map rights_text
        (right.GL ∷ right.LG ∷ right.SD ∷ right.LM ∷ right.SL ∷ right.LD ∷ right.MC ∷ right.SR
        ∷ right.EX ∷ right.US ∷ right.SE ∷ right.U0 ∷ [])
        ≡ codes "GL" ∷ codes "LG" ∷ codes "SD" ∷ codes "LM" ∷ codes "SL" ∷ codes "LD"
        ∷ codes "MC" ∷ codes "SR" ∷ codes "EX" ∷ codes "US" ∷ codes "SE" ∷ codes "U0" ∷ [] }
    ensures order { rights_text right.ALL_RIGHTS ≡ codes "GL LG SD LM SL LD MC SR EX US SE U0" }
    ensures code { rights_text right.CODE_RIGHTS ≡ codes "GL LG LM LD MC EX" }
    ensures globals { rights_text right.GLOBALS_RIGHTS ≡ codes "GL LG SD LM LD MC" }
    ensures heap { rights_text right.HEAP_RIGHTS ≡ codes "GL LG SD LM LD MC" }
    ensures stack { rights_text right.STACK_RIGHTS ≡ codes "LG SD LM SL LD MC" }
    ensures service { rights_text right.SERVICE_RIGHTS ≡ codes "GL LD MC EX" }
    ensures sealed { rights_text right.SEALED_RIGHTS ≡ codes "GL SD LD" }
    ensures export { rights_text right.EXPORT_RIGHTS ≡ codes "GL LD" }
    ensures quota { rights_text right.QUOTA_RIGHTS ≡ codes "GL LD" }
    ensures key { rights_text right.KEY_RIGHTS ≡ codes "GL US SE" }
    ensures device_letters { map rights_text device_right_sets
        ≡ codes "GL LD" ∷ codes "GL SD" ∷ codes "GL SD LD" ∷ [] }
    ensures shared_letters { map rights_text carrying_rights
        ≡ codes "GL LG LM LD MC" ∷ codes "GL SD MC" ∷ codes "GL LG SD LM LD MC" ∷ [] }
    ensures memory_root { right.MEMORY_ROOT ≡ 0x7E3C0100 }
    ensures executable_root { right.EXECUTABLE_ROOT ≡ 0x5E3C0100 }
    ensures sealing_root { right.SEALING_ROOT ≡ 0x4E3C0100 }
{}
