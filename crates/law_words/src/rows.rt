//! The definitions at worked values: each row computes.

ghost use Rattle.std.specs.Prelude.{false, true, ◌+◌, ◌<◌, ◌^◌, ◌≡◌, ℕ};
ghost use Rattle.def_profile.specs.declared.bounds.TheConstants.{WIDEST_EXPONENT};
ghost use Rattle.def_profile.specs.declared.rights.TheConstants.{CODE_RIGHTS, EX, EXPORT_RIGHTS, GL, GLOBALS_RIGHTS, HEAP_RIGHTS, KEY_RIGHTS, LD, LG, LM, MC, QUOTA_RIGHTS, SD, SE, SEALED_RIGHTS, SERVICE_RIGHTS, SL, SR, STACK_RIGHTS, U0, US};
ghost use Rattle.def_words.specs.Authority.{base_of, bounds_of, cap_base, cap_top, top_of};
ghost use Rattle.def_words.specs.Capability.{masked, nowhere, sealed_by, unsealed_by};
ghost use Rattle.def_words.specs.Derive.{derive, executable_root, memory_root, root_cap, sealing_root};
ghost use Rattle.def_words.specs.LeastBounds.{align_mask_of, rounded_of, round_length_of};
ghost use Rattle.def_words.specs.Permissions.{IsLegal, cap_perms, execute, global, load_data, load_global, load_mutable, memory_capability, normal_set, sealing, store_data, store_local, system_registers, unsealing, user};
ghost use Rattle.def_words.specs.Seals.{cap_seal};
ghost use Rattle.def_words.specs.Facts.{IsRoot, SpellsPermissions};

/// The three roots: all addresses at every address, and all permissions of their forms.
pub fn roots_hold_all()
    ensures memory { IsRoot memory_root }
    ensures executable { IsRoot executable_root }
    ensures sealing { IsRoot sealing_root }
    ensures lowest { (high address : ℕ) → IsRoot high → address < 2 ^ 32
        → base_of high address ≡ 0 }
    ensures highest { (high address : ℕ) → IsRoot high → address < 2 ^ 32
        → top_of high address ≡ 2 ^ 32 }
    ensures at_zero { bounds_of memory_root 0
        ≡ record { exponent = WIDEST_EXPONENT; base = 0; top = 2 ^ 32 } }
    ensures at_end { bounds_of memory_root 0xFFFFFFFF
        ≡ record { exponent = WIDEST_EXPONENT; base = 0; top = 2 ^ 32 } }
    ensures memory_rights { cap_perms (root_cap memory_root nowhere)
        ≡ GL + LG + SD + LM + SL + LD + MC }
    ensures executable_rights { cap_perms (root_cap executable_root nowhere)
        ≡ GL + LG + LM + LD + MC + SR + EX }
    ensures sealing_rights { cap_perms (root_cap sealing_root nowhere) ≡ GL + US + SE + U0 }
{}

/// Least bounds at 511 and 512, where an exponent is skipped, at the greatest exponent, and of
/// nothing.
pub fn least_bounds_rows()
    ensures exact_511 { rounded_of 0x80000001 (0x80000001 + 511)
        ≡ record { fields = 512; base = 0x80000001; top = 0x80000200; exact = true } }
    ensures rounded_512 { rounded_of 0x80000001 (0x80000001 + 512)
        ≡ record { fields = 262401; base = 0x80000000; top = 0x80000202; exact = false } }
    ensures skips { rounded_of 0x80000001 (0x80000001 + 1022)
        ≡ record { fields = 524544; base = 0x80000000; top = 0x80000400; exact = false } }
    ensures greatest { rounded_of 0x80000000 (0x80000000 + 8372225)
        ≡ record { fields = 3997825; base = 0x80000000; top = 0x81000000; exact = false } }
    ensures empty { rounded_of 0x80000000 0x80000000
        ≡ record { fields = 0; base = 0x80000000; top = 0x80000000; exact = true } }
    ensures lengths { (round_length_of 511 ≡ 511) × (round_length_of 512 ≡ 512)
        × (round_length_of 513 ≡ 514) × (round_length_of 8372225 ≡ 0x1000000) }
    ensures masks { (align_mask_of 0 ≡ 0xFFFFFFFF) × (align_mask_of 512 ≡ 0xFFFFFFFE)
        × (align_mask_of 8372225 ≡ 0xFF000000) }
{}

/// Each bit of the profile is that of its permission.
pub fn bits_are_permissions()
    ensures first { (GL ≡ 2 ^ global) × (LG ≡ 2 ^ load_global) × (SD ≡ 2 ^ store_data)
        × (LM ≡ 2 ^ load_mutable) }
    ensures second { (SL ≡ 2 ^ store_local) × (LD ≡ 2 ^ load_data) × (MC ≡ 2 ^ memory_capability)
        × (SR ≡ 2 ^ system_registers) }
    ensures third { (EX ≡ 2 ^ execute) × (US ≡ 2 ^ unsealing) × (SE ≡ 2 ^ sealing)
        × (U0 ≡ 2 ^ user) }
{}

/// The rights of each kind of entry are legal, and the root that boot takes them from spells them.
pub fn rights_are_spelled()
    ensures code { IsLegal CODE_RIGHTS × SpellsPermissions executable_root CODE_RIGHTS }
    ensures service { IsLegal SERVICE_RIGHTS × SpellsPermissions executable_root SERVICE_RIGHTS }
    ensures globals { IsLegal GLOBALS_RIGHTS × SpellsPermissions memory_root GLOBALS_RIGHTS }
    ensures heap { IsLegal HEAP_RIGHTS × SpellsPermissions memory_root HEAP_RIGHTS }
    ensures stack { IsLegal STACK_RIGHTS × SpellsPermissions memory_root STACK_RIGHTS }
    ensures sealed { IsLegal SEALED_RIGHTS × SpellsPermissions memory_root SEALED_RIGHTS }
    ensures export { IsLegal EXPORT_RIGHTS × SpellsPermissions memory_root EXPORT_RIGHTS }
    ensures quota { IsLegal QUOTA_RIGHTS × SpellsPermissions memory_root QUOTA_RIGHTS }
    ensures key { IsLegal KEY_RIGHTS × SpellsPermissions sealing_root KEY_RIGHTS }
{}

/// Removing LD from GL LG LM LD MC EX leaves GL.
pub fn removing_load_data()
    ensures { normal_set (GL + LG + LM + MC + EX) ≡ GL }
{}

/// A value with GL LD, and a key with bounds 13 to 14 and GL US SE: sealing at key address 13 keeps
/// the tag and gives field 5, which the key opens again; at 14, the key's top, the result is untagged
/// with field 6.
pub fn sealing_rows()
    ensures inside { (sealed_by (derive memory_root 64 32 EXPORT_RIGHTS 64 0 nowhere)
        (derive sealing_root 13 1 KEY_RIGHTS 13 0 nowhere)).tag
        ≡ true }
    ensures thirteen { cap_seal
        (sealed_by (derive memory_root 64 32 EXPORT_RIGHTS 64 0 nowhere)
        (derive sealing_root 13 1 KEY_RIGHTS 13 0 nowhere))
        ≡ 13 }
    ensures at_top { (derive sealing_root 13 1 KEY_RIGHTS 14 0 nowhere).tag ≡ true }
    ensures outside { (sealed_by (derive memory_root 64 32 EXPORT_RIGHTS 64 0 nowhere)
        (derive sealing_root 13 1 KEY_RIGHTS 14 0 nowhere)).tag
        ≡ false }
    ensures fourteen { cap_seal
        (sealed_by (derive memory_root 64 32 EXPORT_RIGHTS 64 0 nowhere)
        (derive sealing_root 13 1 KEY_RIGHTS 14 0 nowhere))
        ≡ 14 }
    ensures opens { unsealed_by
        (sealed_by (derive memory_root 64 32 EXPORT_RIGHTS 64 0 nowhere)
        (derive sealing_root 13 1 KEY_RIGHTS 13 0 nowhere))
        (derive sealing_root 13 1 KEY_RIGHTS 13 0 nowhere)
        ≡ derive memory_root 64 32 EXPORT_RIGHTS 64 0 nowhere }
{}
