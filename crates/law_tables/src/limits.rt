//! The limits of files, firmware and runs.

ghost use Rattle.std.specs.Prelude.{◌≡◌};
ghost use Rattle.def_profile.specs.declared.layout.TheConstants.{REGION_UNIT};
ghost use Rattle.def_profile.specs.declared.limits.TheConstants as limit;
ghost use Rattle.def_profile.specs.declared.seals.TheConstants.{FIRST_KEY_TYPE, LAST_KEY_TYPE};
ghost use Rattle.def_profile.specs.Versions.{most_ram, most_threads, least_sweep, most_sweep};
ghost use Rattle.def_image.specs.Profile.{last_version, last_service};
ghost use Rattle.def_policy.specs.declared.TheConstants.{MOST_TOTAL};

/// Bytes of a file and of names, steps of a run, and the total that a policy may name.
pub fn limits_of_files()
    ensures file { limit.MOST_FILE ≡ 16777216 }
    ensures steps { limit.MOST_STEPS ≡ 4000000000 }
    ensures total { MOST_TOTAL ≡ 2199023255551 }
    ensures file_name { limit.MOST_FILE_NAME ≡ 255 }
    ensures name { limit.MOST_NAME ≡ 32 }
{}

/// The limits of an image. RAM in bytes, by the version of the format; what else differs between the versions: threads,
/// and granules of a slice. How many members its lists have at most: slots are the switch, imports, quotas and keys.
/// Its numbers: bytes of objects, globals, text and initial bytes; arguments; stacks; frames; priorities; the quantum;
/// quotas; keys; routines.
pub fn limits_of_images()
    ensures ram_least { limit.LEAST_RAM ≡ 256 }
    ensures ram_most { most_ram 1 ≡ 8388608 }
    ensures ram_most_2 { most_ram 2 ≡ 67108864 }
    ensures ram_end { limit.RAM_END ≡ 4294967280 }
    ensures region_unit { REGION_UNIT ≡ 16 }
    ensures version { last_version ≡ 2 }
    ensures threads { most_threads 1 ≡ 16 }
    ensures threads_2 { most_threads 2 ≡ 64 }
    ensures sweep_least { least_sweep 1 ≡ 64 }
    ensures sweep_most { most_sweep 1 ≡ 64 }
    ensures sweep_least_2 { least_sweep 2 ≡ 1 }
    ensures sweep_most_2 { most_sweep 2 ≡ 65536 }
    ensures devices { limit.MOST_DEVICES ≡ 16 }
    ensures objects { limit.MOST_OBJECTS ≡ 64 }
    ensures compartments { limit.MOST_COMPARTMENTS ≡ 64 }
    ensures libraries { limit.MOST_LIBRARIES ≡ 32 }
    ensures imports { limit.MOST_IMPORTS ≡ 128 }
    ensures slots { limit.MOST_SLOTS ≡ 148 }
    ensures exports { limit.MOST_EXPORTS ≡ 64 }
    ensures bytes { limit.MOST_BYTES ≡ 1048576 }
    ensures arguments { limit.MOST_ARGUMENTS ≡ 6 }
    ensures least_stack { limit.LEAST_STACK ≡ 256 }
    ensures most_stack { limit.MOST_STACK ≡ 32752 }
    ensures stack_region { limit.MOST_STACK_REGION ≡ 32768 }
    ensures frames { limit.MOST_FRAMES ≡ 96 }
    ensures priority { limit.MOST_PRIORITY ≡ 15 }
    ensures quantum { limit.MOST_QUANTUM ≡ 1000000 }
    ensures quota { limit.MOST_QUOTA ≡ 2147483647 }
    ensures first_key { FIRST_KEY_TYPE ≡ 13 }
    ensures last_key { LAST_KEY_TYPE ≡ 15 }
    ensures service { last_service ≡ 12 }
{}
