//! The smallest image: its bytes, its checks, what it boots, and itself in version 2.

ghost use Rattle.std.specs.Prelude.{◌≡◌, length, take, drop, None, true, false, [], ◌∷◌, ◌++◌, codes};
ghost use Rattle.def_image.specs.Spelling.{image_bytes, raw_of};
ghost use Rattle.def_image.specs.Checks.{first};
ghost use Rattle.def_image.specs.Limits.{limit_checks};
ghost use Rattle.def_image.specs.Lying.{region_checks};
ghost use Rattle.def_image.specs.Indexes.{index_checks};
ghost use Rattle.def_image.specs.Rights.{right_checks};
ghost use Rattle.def_image.specs.Accepted.{is_begun};
ghost use Rattle.def_memory.specs.Granules.{plain};
ghost use Rattle.def_machine.specs.State.{thread, register};
ghost use Rattle.def_machine.specs.Image.{Stack, HeapRam};
ghost use Rattle.def_boot.specs.Contents.{boot_cap, part};
ghost use Rattle.def_boot.specs.Boot.{boot_state};
ghost use Rattle.def_image.specs.Parts.{upgraded};
ghost use Rattle.law_image_samples.specs.Tiny.{tiny, of_entry};

/// The bytes of the smallest image; nothing is asked of it that fails; what boot puts in RAM and registers, by address:
/// an image of the smallest firmware boots as the firmware itself; and the same image in version 2.
pub fn tiny_stands()
    ensures size { length (image_bytes tiny) ≡ 412 }
    ensures begins { take 8 (image_bytes tiny) ≡ 67 ∷ 84 ∷ 70 ∷ 87 ∷ 1 ∷ 0 ∷ 0 ∷ 0 ∷ [] }
    ensures slot { take 8 (drop 192 (image_bytes tiny)) ≡ 1 ∷ 40 ∷ 0 ∷ 0 ∷ 0 ∷ 0 ∷ 0 ∷ 0 ∷ [] }
    ensures export { take 16 (drop 288 (image_bytes tiny)) ≡ 0 ∷ 0 ∷ 0 ∷ 0 ∷ 0 ∷ 0 ∷ 0 ∷ 0 ∷ 6 ∷ 3
        ∷ 1 ∷ 0 ∷ 5 ∷ 0 ∷ 0 ∷ 0 ∷ [] }
    ensures begun { is_begun (image_bytes tiny) ≡ true }
    ensures short { is_begun (take 7 (image_bytes tiny)) ≡ false }
    ensures version { is_begun (take 4 (image_bytes tiny) ++ 9 ∷ drop 5 (image_bytes tiny))
        ≡ false }
    ensures magic { is_begun (0 ∷ drop 1 (image_bytes tiny)) ≡ false }
    ensures limits { first (limit_checks (raw_of (tiny))) ≡ None }
    ensures regions { first (region_checks (tiny)) ≡ None }
    ensures indexes { first (index_checks (tiny)) ≡ None }
    ensures rights { first (right_checks (tiny)) ≡ None }
    ensures switch_cap { boot_cap tiny 2147483648 ≡ of_entry 3 5782621955903520768 }
    ensures uart { boot_cap tiny 2147483656 ≡ of_entry 4 7061644284704849920 }
    ensures text { boot_cap tiny 2147483664 ≡ plain 0xff82b28300000297 }
    ensures last_text { boot_cap tiny 2147483680 ≡ plain 0x00008067 }
    ensures code { boot_cap tiny 2147483696 ≡ of_entry 1 6196953295567716352 }
    ensures globals { boot_cap tiny 2147483704 ≡ of_entry 2 8502972432800284752 }
    ensures export_first { boot_cap tiny 2147483712 ≡ plain 0 }
    ensures export_second { boot_cap tiny 2147483720 ≡ plain 0x0000000500010306 }
    ensures sentry { boot_cap tiny 2147484000 ≡ of_entry 0 5854714803033014288 }
    ensures stack { boot_cap tiny 2147483744 ≡ plain 0 }
    ensures pcc { (thread (boot_state tiny) 0).pcc ≡ of_entry 1 6196953295567716368 }
    ensures c1 { register (thread (boot_state tiny) 0) 1 ≡ of_entry 0 5854714803033014288 }
    ensures c2 { register (thread (boot_state tiny) 0) 2 ≡ of_entry 6 4467783450560037216 }
    ensures c3 { register (thread (boot_state tiny) 0) 3 ≡ of_entry 2 8502972432800284752 }
    ensures heap_part { part tiny 2147484304 ≡ HeapRam }
    ensures stack_part { part tiny 2147483744 ≡ Stack 0 }
    ensures upgraded_size { length (image_bytes (upgraded tiny)) ≡ 416 }
    ensures upgraded_begins { take 8 (image_bytes (upgraded tiny))
        ≡ 67 ∷ 84 ∷ 70 ∷ 87 ∷ 2 ∷ 0 ∷ 0 ∷ 0 ∷ [] }
    ensures upgraded_rate { take 4 (drop 52 (image_bytes (upgraded tiny))) ≡ 64 ∷ 0 ∷ 0 ∷ 0 ∷ [] }
    ensures upgraded_name { take 4 (drop 56 (image_bytes (upgraded tiny))) ≡ codes "tiny" }
    ensures upgraded_limits { first (limit_checks (raw_of (upgraded tiny))) ≡ None }
    ensures upgraded_regions { first (region_checks (upgraded tiny)) ≡ None }
    ensures upgraded_indexes { first (index_checks (upgraded tiny)) ≡ None }
    ensures upgraded_rights { first (right_checks (upgraded tiny)) ≡ None }
{}
