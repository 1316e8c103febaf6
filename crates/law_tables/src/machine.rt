//! The numbers of the machine: native routines and what they answer, traps, seals, how RAM is laid out.

ghost use Rattle.std.specs.Prelude.{◌≡◌, [], ◌∷◌};
ghost use Rattle.def_native.specs.declared.TheConstants as routine;
ghost use Rattle.def_profile.specs.declared.answers.TheConstants as answer;
ghost use Rattle.def_profile.specs.declared.layout.TheConstants as layout;
ghost use Rattle.def_profile.specs.declared.native.TheConstants as native;
ghost use Rattle.def_profile.specs.declared.seals.TheConstants as seal;
ghost use Rattle.def_profile.specs.declared.traps.TheConstants as trap;
ghost use Rattle.def_profile.specs.Areas.{area_length};
ghost use Rattle.def_step.specs.declared.TheConstants as step;

/// Where native routines stand, and their numbers: the switch, the return, yield, sleep, wait, wake,
/// allocate, free, remaining, and the four of tokens. What they answer where they refuse, negated, and
/// what a caller gets of a callee that trapped.
pub fn native_routines()
    ensures base { native.NATIVE_BASE ≡ 0x00010000 }
    ensures end { native.NATIVE_END ≡ 0x00011000 }
    ensures unit { native.NATIVE_UNIT ≡ 16 }
    ensures bytes { native.NATIVE_LENGTH ≡ 8 }
    ensures calls { routine.SWITCH ∷ native.RETURN ∷ [] ≡ 0 ∷ 1 ∷ [] }
    ensures turns { routine.YIELD ∷ routine.SLEEP ∷ routine.WAIT ∷ routine.WAKE ∷ []
        ≡ 2 ∷ 3 ∷ 4 ∷ 5 ∷ [] }
    ensures heap { routine.ALLOCATE ∷ routine.FREE ∷ routine.REMAINING ∷ [] ≡ 6 ∷ 7 ∷ 8 ∷ [] }
    ensures tokens { routine.TOKEN_KEY ∷ routine.TOKEN_NEW ∷ routine.TOKEN_OPEN ∷ routine.TOKEN_FREE
        ∷ [] ≡ 9 ∷ 10 ∷ 11 ∷ 12 ∷ [] }
    ensures last { routine.LAST_NATIVE ∷ step.LAST_ROUTINE ∷ [] ≡ 12 ∷ 12 ∷ [] }
    ensures return_entry { native.RETURN_ENTRY ≡ 0x00010010 }
    ensures heap_answers { answer.NO_QUOTA ∷ answer.PAST_LIMIT ∷ answer.NO_PLACE ∷ answer.NO_SIZE
        ∷ answer.NO_PLACE_YET ∷ answer.NO_OBJECT ∷ [] ≡ 1 ∷ 2 ∷ 3 ∷ 4 ∷ 5 ∷ 6 ∷ [] }
    ensures token_answers { answer.NO_KEY ∷ answer.NO_TOKEN ∷ [] ≡ 7 ∷ 8 ∷ [] }
    ensures call_answers { answer.NO_STACK ∷ answer.TOO_DEEP ∷ [] ≡ 11 ∷ 12 ∷ [] }
    ensures wait_answers { answer.DIFFERS ≡ 21 }
    ensures unwound { answer.UNWOUND ≡ 0xFFFFFFFF }
{}

/// Causes of traps, and the codes that cause 28 has: bounds, tag, seal, execute, load, store, store of
/// a capability, system registers.
pub fn numbers_of_traps()
    ensures fetch { trap.MISALIGNED_FETCH ∷ trap.ILLEGAL_INSTRUCTION ∷ [] ≡ 0 ∷ 2 ∷ [] }
    ensures access { trap.MISALIGNED_LOAD ∷ trap.MISALIGNED_STORE ∷ [] ≡ 4 ∷ 6 ∷ [] }
    ensures calls { trap.BREAKPOINT ∷ trap.ENVIRONMENT_CALL ∷ [] ≡ 3 ∷ 11 ∷ [] }
    ensures capability { trap.CAPABILITY_FAULT ≡ 28 }
    ensures forms { trap.BOUNDS_CODE ∷ trap.TAG_CODE ∷ trap.SEAL_CODE ∷ [] ≡ 1 ∷ 2 ∷ 3 ∷ [] }
    ensures rights { trap.EXECUTE_CODE ∷ trap.LOAD_CODE ∷ trap.STORE_CODE
        ∷ trap.STORE_CAPABILITY_CODE ∷ trap.SYSTEM_REGISTER_CODE ∷ []
        ≡ 17 ∷ 18 ∷ 19 ∷ 21 ∷ 24 ∷ [] }
    ensures register { trap.PCC_REGISTER ≡ 16 }
{}

/// Types of seals: forward sentries that inherit, disable and enable interrupts, return sentries that
/// disable and enable them, exports, quotas and tokens.
pub fn types_of_seals()
    ensures sentries { seal.SENTRY_INHERIT ∷ seal.SENTRY_DISABLE ∷ seal.SENTRY_ENABLE ∷ []
        ≡ 1 ∷ 2 ∷ 3 ∷ [] }
    ensures returns { seal.RETURN_DISABLE ∷ seal.RETURN_ENABLE ∷ [] ≡ 4 ∷ 5 ∷ [] }
    ensures others { seal.DATA_TYPES ≡ 8 }
    ensures made { seal.EXPORT_TYPE ∷ seal.QUOTA_TYPE ∷ seal.TOKEN_TYPE ∷ [] ≡ 9 ∷ 10 ∷ 11 ∷ [] }
{}

/// Bytes of granules, slots, export tables, the trusted region, threads' areas and frames, chunks and
/// devices.
pub fn places_in_ram()
    ensures granule { layout.GRANULE ≡ 8 }
    ensures slot { layout.SLOT_SIZE ≡ 8 }
    ensures table { layout.TABLE_HEAD ∷ layout.TABLE_ROW ∷ [] ≡ 16 ∷ 16 ∷ [] }
    ensures trusted { layout.TRUSTED_HEAD ≡ 16 }
    ensures saved { layout.SAVED_SIZE ≡ 128 }
    ensures area { area_length 0 ≡ 160 }
    ensures frame { area_length 1 ≡ 224 }
    ensures chunk { layout.CHUNK_HEAD ≡ 8 }
    ensures device { layout.DEVICE_SIZE ≡ 16 }
{}
