//! What is found altered in the image with a slot of each kind.

ghost use Rattle.std.specs.Prelude.{◌≡◌, length, Some, [], ◌∷◌, replicate, codes, unwrap_or, slice_get};
ghost use Rattle.def_image.specs.Spelling.{raw_of, raw_sealed, raw_code, name_field};
ghost use Rattle.def_image.specs.Checks.{first};
ghost use Rattle.def_image.specs.Limits.{limit_checks};
ghost use Rattle.def_image.specs.Lying.{region_checks};
ghost use Rattle.def_image.specs.Indexes.{index_checks};
ghost use Rattle.def_image.specs.Rights.{right_checks};
ghost use Rattle.def_image.specs.Members.{no_shared, no_sealed};
ghost use Rattle.def_image.specs.declared.SlotKind.TheVariants as slot;
ghost use Rattle.law_image_samples.specs.Whole.{whole, one, two, label_of, with_row, with_lib, with_shared, with_sealed};

/// The image with a slot of each kind altered, and where that is found: limits and forms of objects, keys, quotas and
/// libraries; objects and libraries that lie where they may not; slots of each kind that name what is not there, or out
/// of order; slots of each kind with other rights, and kinds that a library may not have.
pub fn whole_altered()
    ensures shared_name { first
        (limit_checks
        (raw_of
        (with_shared (record (unwrap_or (slice_get whole.shared 0) no_shared) {
          name = [];
        }))))
        ≡ Some 164 }
    ensures shared_length { first
        (limit_checks
        (raw_of
        (with_shared (record (unwrap_or (slice_get whole.shared 0) no_shared) {
          length = 1048577;
        }))))
        ≡ Some 200 }
    ensures sealed_length { first
        (limit_checks
        (raw_of
        (with_sealed (record (unwrap_or (slice_get whole.sealed 0) no_sealed) {
          length = 0;
        }))))
        ≡ Some 240 }
    ensures sealed_type { first
        (limit_checks
        (raw_of
        (with_sealed (record (unwrap_or (slice_get whole.sealed 0) no_sealed) {
          seal = 12;
        }))))
        ≡ Some 244 }
    ensures sealed_bytes { first
        (limit_checks
        (raw_of
        (with_sealed (record (unwrap_or (slice_get whole.sealed 0) no_sealed) {
          length = 4;
        }))))
        ≡ Some 248 }
    ensures no_sealed_bytes { first
        (limit_checks
        (raw_of
        (with_sealed (record (unwrap_or (slice_get whole.sealed 0) no_sealed) {
          bytes = [];
        }))))
        ≡ Some 248 }
    ensures sealed_padding { first
        (limit_checks (record (raw_of whole) {
          sealed =
              record (raw_sealed (unwrap_or (slice_get whole.sealed 0) no_sealed)) {
                padding = 0 ∷ 1 ∷ 0 ∷ [];
              }
              ∷ [];
        }))
        ≡ Some 257 }
    ensures quota { first
        (limit_checks
        (raw_of
        (with_row 6
        (record { kind = slot.Quota; rights = 50; first = 2147483648; second = 0 }))))
        ≡ Some 620 }
    ensures key_type { first
        (limit_checks
        (raw_of
        (with_row 7 (record { kind = slot.Key; rights = 35; first = 16; second = 0 }))))
        ≡ Some 668 }
    ensures key_name { first
        (limit_checks
        (raw_of
        (with_row 8 (record { kind = slot.Key; rights = 35; first = 13; second = 0 }))))
        ≡ Some 728 }
    ensures long_name { first (limit_checks (raw_of (record whole { name = replicate 33 97 })))
        ≡ Some 52 }
    ensures library_name { first
        (limit_checks (raw_of (record whole { libraries = one ∷ one ∷ [] })))
        ≡ Some 1024 }
    ensures library_posture { first
        (limit_checks (record (raw_of whole) {
          libraries =
              raw_code one
              ∷ record (raw_code two) {
                exports =
                    record {
                      row = 0 ∷ 0 ∷ 0 ∷ 0 ∷ 0 ∷ 0 ∷ 0 ∷ 0 ∷ 0 ∷ 4 ∷ 1 ∷ 0 ∷ 18 ∷ 0 ∷ 0 ∷ 0 ∷ [];
                      name = name_field (codes "f");
                    }
                    ∷ [];
              }
              ∷ [];
        }))
        ≡ Some 1085 }
    ensures library_args { first
        (limit_checks
        (raw_of (record whole {
          libraries =
              one
              ∷ record two {
                exports =
                    record (label_of 18) { row = record (label_of 18).row { args = 1 } } ∷ [];
              }
              ∷ [];
        })))
        ≡ Some 1084 }
    ensures library_entry { first
        (limit_checks
        (raw_of (record whole {
          libraries = one ∷ record two { exports = label_of 17 ∷ [] } ∷ [];
        })))
        ≡ Some 1088 }
    ensures code_meets_shared { first
        (region_checks
        (with_shared (record (unwrap_or (slice_get whole.shared 0) no_shared) {
          base = 0xff800000;
          length = 0x1010;
        })))
        ≡ Some 292 }
    ensures shared_inexact { first
        (region_checks
        (with_shared (record (unwrap_or (slice_get whole.shared 0) no_shared) {
          base = 0xff902010;
        })))
        ≡ Some 196 }
    ensures sealed_out { first
        (region_checks
        (with_sealed (record (unwrap_or (slice_get whole.sealed 0) no_sealed) {
          base = 0xff7fff00;
        })))
        ≡ Some 236 }
    ensures library_meets { first
        (region_checks (record whole {
          libraries = one ∷ record two { base = 0xff901000 } ∷ [];
        }))
        ≡ Some 1056 }
    ensures shared { first
        (index_checks
        (with_row 2 (record { kind = slot.Shared; rights = 59; first = 1; second = 0 })))
        ≡ Some 424 }
    ensures sealed { first
        (index_checks
        (with_row 3 (record { kind = slot.Sealed; rights = 51; first = 1; second = 0 })))
        ≡ Some 472 }
    ensures call { first
        (index_checks
        (with_row 4 (record { kind = slot.Call; rights = 50; first = 1; second = 0 })))
        ≡ Some 520 }
    ensures call_export { first
        (index_checks
        (with_row 4 (record { kind = slot.Call; rights = 50; first = 0; second = 1 })))
        ≡ Some 520 }
    ensures library { first
        (index_checks
        (with_row 5 (record { kind = slot.Library; rights = 43; first = 2; second = 0 })))
        ≡ Some 568 }
    ensures library_export { first
        (index_checks
        (with_row 5 (record { kind = slot.Library; rights = 43; first = 1; second = 1 })))
        ≡ Some 568 }
    ensures quota_early { first
        (index_checks
        (with_row 1 (record { kind = slot.Quota; rights = 50; first = 1; second = 0 })))
        ≡ Some 424 }
    ensures in_library { first
        (index_checks
        (with_lib (record { kind = slot.Device; rights = 51; first = 2; second = 0 })))
        ≡ Some 924 }
    ensures reserved_in_library { first
        (index_checks
        (with_lib (record { kind = slot.Service; rights = 40; first = 0; second = 0 })))
        ≡ Some 924 }
    ensures right_shared { first
        (right_checks
        (with_row 2 (record { kind = slot.Shared; rights = 58; first = 0; second = 0 })))
        ≡ Some 424 }
    ensures right_sealed { first
        (right_checks
        (with_row 3 (record { kind = slot.Sealed; rights = 50; first = 0; second = 0 })))
        ≡ Some 472 }
    ensures right_call { first
        (right_checks
        (with_row 4 (record { kind = slot.Call; rights = 51; first = 0; second = 0 })))
        ≡ Some 520 }
    ensures right_library { first
        (right_checks
        (with_row 5 (record { kind = slot.Library; rights = 40; first = 0; second = 0 })))
        ≡ Some 568 }
    ensures right_quota { first
        (right_checks
        (with_row 6 (record { kind = slot.Quota; rights = 51; first = 0; second = 0 })))
        ≡ Some 616 }
    ensures key { first
        (right_checks
        (with_row 7 (record { kind = slot.Key; rights = 33; first = 13; second = 0 })))
        ≡ Some 664 }
    ensures carrying_device { first
        (right_checks
        (with_row 1 (record { kind = slot.Device; rights = 59; first = 1; second = 0 })))
        ≡ Some 376 }
    ensures key_in_library { first
        (right_checks
        (with_lib (record { kind = slot.Key; rights = 35; first = 13; second = 0 })))
        ≡ Some 924 }
{}
