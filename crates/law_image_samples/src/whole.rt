//! An image with a slot of each kind, every number as wide as it may be.

ghost use Rattle.std.specs.Prelude.{◌≡◌, length, None, true};
ghost use Rattle.def_image.specs.Spelling.{image_bytes, raw_of};
ghost use Rattle.def_image.specs.Checks.{first};
ghost use Rattle.def_image.specs.Limits.{limit_checks};
ghost use Rattle.def_image.specs.Lying.{region_checks};
ghost use Rattle.def_image.specs.Indexes.{index_checks};
ghost use Rattle.def_image.specs.Rights.{right_checks};
ghost use Rattle.def_image.specs.Members.{handler_number};
ghost use Rattle.def_memory.specs.Granules.{plain};
ghost use Rattle.def_words.specs.Seals.{cap_seal};
ghost use Rattle.def_reach.specs.Roots.{root_of};
ghost use Rattle.def_machine.specs.State.{thread};
ghost use Rattle.def_boot.specs.Gates.{entries_of};
ghost use Rattle.def_boot.specs.Made.{boot_cap_of};
ghost use Rattle.def_boot.specs.Contents.{boot_cap};
ghost use Rattle.def_boot.specs.Boot.{boot_state};
ghost use Rattle.law_image_samples.specs.Whole.{whole};
ghost use Rattle.law_image_samples.specs.Board.{board};

/// The size of an image with a slot of each kind, and that nothing is asked of it that fails; what boot makes of a slot
/// of each kind, and of the thread, which enters a disabled export.
pub fn whole_stands()
    ensures size { length (image_bytes whole) ≡ 1184 }
    ensures limits { first (limit_checks (raw_of (whole))) ≡ None }
    ensures regions { first (region_checks (whole)) ≡ None }
    ensures indexes { first (index_checks (whole)) ≡ None }
    ensures rights { first (right_checks (whole)) ≡ None }
    ensures device { cap_seal (boot_cap_of whole 4) ≡ 0 }
    ensures device_base { (root_of (entries_of whole) 4).base ≡ 0 }
    ensures shared { (root_of (entries_of whole) 5).top ≡ 0xffa02000 }
    ensures sealed { cap_seal (boot_cap_of whole 6) ≡ 15 }
    ensures call { cap_seal (boot_cap_of whole 7) ≡ 9 }
    ensures call_of { (root_of (entries_of whole) 7).of ≡ 13 }
    ensures library { cap_seal (boot_cap_of whole 8) ≡ 3 }
    ensures library_of { (root_of (entries_of whole) 8).of ≡ 16 }
    ensures quota { cap_seal (boot_cap_of whole 9) ≡ 10 }
    ensures key { (root_of (entries_of whole) 10).base ≡ 13 }
    ensures key_seal { cap_seal (boot_cap_of whole 10) ≡ 0 }
    ensures own_library { boot_cap_of whole 14 ≡ plain 0 }
    ensures other_library { (root_of (entries_of whole) 15).of ≡ 18 }
    ensures sealed_bytes { boot_cap whole 0xffa02000 ≡ plain 0x0000000506070809 }
    ensures initial_bytes { boot_cap whole 0xff801000 ≡ plain 0x0000000504030201 }
    ensures shared_bytes { boot_cap whole 0xff902000 ≡ plain 0 }
    ensures handler { handler_number whole 0 ≡ 13 }
    ensures no_handler { handler_number board 0 ≡ 0 }
    ensures disabled { (thread (boot_state whole) 0).posture ≡ record { off = true; source = 13 } }
{}
