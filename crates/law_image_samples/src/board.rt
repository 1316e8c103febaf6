//! The larger sample.

ghost use Rattle.std.specs.Prelude.{◌≡◌, length, None};
ghost use Rattle.def_words.specs.Seals.{cap_seal};
ghost use Rattle.def_reach.specs.Roots.{root_of};
ghost use Rattle.def_machine.specs.State.{thread, register};
ghost use Rattle.def_image.specs.Checks.{first};
ghost use Rattle.def_image.specs.Lying.{region_checks};
ghost use Rattle.def_image.specs.Indexes.{index_checks};
ghost use Rattle.def_image.specs.Rights.{right_checks};
ghost use Rattle.def_boot.specs.Entries.{entry_rows};
ghost use Rattle.def_boot.specs.Gates.{entries_of};
ghost use Rattle.def_boot.specs.Made.{boot_cap_of, return_sentry};
ghost use Rattle.def_boot.specs.Boot.{boot_state};
ghost use Rattle.def_memory.specs.Granules.{plain};
ghost use Rattle.def_machine.specs.Image.{Bare, Fixed, Globals, HeapRam, Stack};
ghost use Rattle.def_boot.specs.Contents.{boot_cap, part};
ghost use Rattle.law_image_samples.specs.Board.{board};

/// The regions, indexes and rights of the larger sample; what its entries name; what boots of it. What each region is
/// part of, by its first granule, and the threads' areas and the heap by theirs. And the capabilities that stand in its
/// RAM at boot, each made for the entry of its number, and the return sentry; globals and stacks are zero.
pub fn board_stands()
    ensures regions { first (region_checks (board)) ≡ None }
    ensures indexes { first (index_checks (board)) ≡ None }
    ensures rights { first (right_checks (board)) ≡ None }
    ensures rows { length (entry_rows board) ≡ 17 }
    ensures call { (root_of (entries_of board) 5).of ≡ 13 }
    ensures library { (root_of (entries_of board) 4).of ≡ 15 }
    ensures quota { (root_of (entries_of board) 7).limit ≡ 64 }
    ensures service { (root_of (entries_of board) 6).base ≡ 0x10060 }
    ensures call_type { cap_seal (boot_cap_of board 5) ≡ 9 }
    ensures library_type { cap_seal (boot_cap_of board 4) ≡ 1 }
    ensures quota_type { cap_seal (boot_cap_of board 7) ≡ 10 }
    ensures second_stack { (register (thread (boot_state board) 1) 2).shadow.root ≡ 17 }
    ensures app_code { part board 0x80000000 ≡ Fixed }
    ensures app_table { part board 0x80000070 ≡ Fixed }
    ensures app_globals { part board 0x80000090 ≡ Globals 0 }
    ensures driver_code { part board 0x800000a0 ≡ Fixed }
    ensures driver_table { part board 0x800000c0 ≡ Fixed }
    ensures driver_globals { part board 0x800000e0 ≡ Globals 1 }
    ensures library_code { part board 0x800000f0 ≡ Fixed }
    ensures first_stack { part board 0x80000100 ≡ Stack 0 }
    ensures part_second_stack { part board 0x80000200 ≡ Stack 1 }
    ensures trusted_head { part board 0x80000300 ≡ Fixed }
    ensures areas { part board 0x80000310 ≡ Bare }
    ensures heap { part board 0x80000550 ≡ HeapRam }
    ensures app_switch { boot_cap board 0x80000000 ≡ boot_cap_of board 3 }
    ensures digit { boot_cap board 0x80000008 ≡ boot_cap_of board 4 }
    ensures put { boot_cap board 0x80000010 ≡ boot_cap_of board 5 }
    ensures allocate { boot_cap board 0x80000018 ≡ boot_cap_of board 6 }
    ensures boot_quota { boot_cap board 0x80000020 ≡ boot_cap_of board 7 }
    ensures boot_app_code { boot_cap board 0x80000070 ≡ boot_cap_of board 1 }
    ensures boot_app_globals { boot_cap board 0x80000078 ≡ boot_cap_of board 2 }
    ensures globals { boot_cap board 0x80000090 ≡ plain 0 }
    ensures driver_switch { boot_cap board 0x800000a0 ≡ boot_cap_of board 11 }
    ensures uart { boot_cap board 0x800000a8 ≡ boot_cap_of board 12 }
    ensures boot_driver_code { boot_cap board 0x800000c0 ≡ boot_cap_of board 9 }
    ensures boot_driver_globals { boot_cap board 0x800000c8 ≡ boot_cap_of board 10 }
    ensures stack { boot_cap board 0x80000100 ≡ plain 0 }
    ensures sentry { boot_cap board 0x80000300 ≡ return_sentry }
    ensures area { boot_cap board 0x80000310 ≡ plain 0 }
{}
