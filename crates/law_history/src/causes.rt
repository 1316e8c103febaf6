//! Laws of what native routines answer, one cause a line, each under the premise that those before it don't hold: the
//! refusals of an allocation in their order, and of a free; those of a key, of a token and of its free; those of a
//! wait, how long a sleep lasts, and that a wake wakes the threads of the lowest numbers. law_sched has which thread is
//! picked, keys.rt what token_open answers. Functions with empty bodies whose contracts are the laws.

ghost use Rattle.std.specs.List.{range_with_len};
ghost use Rattle.std.specs.Prelude.{◌+◌, ◌-◌, ◌<◌, ◌≡◌, ◌≤◌, List, None, Some, count_by, length, min, true, ℕ};
ghost use Rattle.def_events.specs.Causes.{after_ticks, HasNoPlace, HasQuarantined, HasQuota, IsWithinLimit, IsWholeOf, MayReturn, NamesObject, SizeFits};
ghost use Rattle.def_machine.specs.Heap.{IsPlaceFor, length_for, new_object, object_cap};
ghost use Rattle.def_machine.specs.Image.{Image, root};
ghost use Rattle.def_machine.specs.Objects.{Any, charges};
ghost use Rattle.def_machine.specs.State.{Object, State, register, thread};
ghost use Rattle.def_memory.specs.Accesses.{loaded};
ghost use Rattle.def_sched.specs.declared.Status.{Status};
ghost use Rattle.def_sched.specs.declared.Status.TheVariants.{Ready, Sleeping, Waiting};
ghost use Rattle.def_machine.specs.Threads.{statuses_of, with_statuses};
ghost use Rattle.def_sched.specs.Statuses.{asleep, status_of, waits_for, wakes, woken};
ghost use Rattle.def_step.specs.Checks.{first_failed};
ghost use Rattle.def_step.specs.Quotas.{allocate, allocation, free, gives_back, hands_out, Made, quota_in, Refused, remaining};
ghost use Rattle.def_step.specs.Routines.{answers, code, Leaves, sleep, stops, tells, wait, wake, word_checks, yield};
ghost use Rattle.def_step.specs.Tokens.{sealed_token, token_free, token_key, token_new, with_row};
ghost use Rattle.def_safety.specs.Opening.{FindsSealed, IsKeyIn, IsTokenIn};
ghost use Rattle.def_words.specs.Authority.{cap_address};
ghost use Rattle.def_words.specs.Capability.{integer};

/// What the routines of the heap answer a caller that may return. An allocation comes to -4 where the size doesn't fit
/// (`size`); else to -2 where the limit would be passed (`limit`); else, where no place is lawful, to -5 where a chunk
/// is quarantined (`waits`) and to -3 where none is (`full`); else to an object at the least lawful place (`made`).
/// Where c10 is no quota, all routines answer -1 (`no_quota`). Else an allocation answers what it comes to, with the
/// size in c11 (`answers`, `hands_out`); a free -6 where c11 names no whole live object of the quota (`no_object`), and
/// else it gives one back (`freed`); and what remains is the limit less the live charges (`remaining`).
pub fn heap_routines_answer()
    ensures size { (i : Image) (s : State) (quota size : ℕ)
        → (SizeFits i size → ⊥) → allocation i s quota size ≡ Refused 4 }
    ensures limit { (i : Image) (s : State) (quota size : ℕ)
        → SizeFits i size → (IsWithinLimit i s quota size → ⊥)
        → allocation i s quota size ≡ Refused 2 }
    ensures waits { (i : Image) (s : State) (quota size : ℕ)
        → SizeFits i size → IsWithinLimit i s quota size → HasNoPlace i s size → HasQuarantined s
        → allocation i s quota size ≡ Refused 5 }
    ensures full { (i : Image) (s : State) (quota size : ℕ)
        → SizeFits i size → IsWithinLimit i s quota size → HasNoPlace i s size
        → (HasQuarantined s → ⊥) → allocation i s quota size ≡ Refused 3 }
    ensures made { (i : Image) (s : State) (quota size base : ℕ)
        → SizeFits i size → IsWithinLimit i s quota size
        → IsPlaceFor i s.objects (length_for size) base
        → allocation i s quota size ≡ Made (new_object s quota size base) }
    ensures no_quota { (i : Image) (s : State) (t : ℕ)
        → MayReturn s t → (HasQuota s t → ⊥)
        → (allocate i s t ≡ tells s t (code 1)) × (free i s t ≡ tells s t (code 1))
        × (remaining i s t ≡ tells s t (code 1)) × (token_key i s t ≡ tells s t (code 1))
        × (token_new i s t ≡ tells s t (code 1)) × (token_free i s t ≡ tells s t (code 1)) }
    ensures answers { (i : Image) (s : State) (t n : ℕ)
        → MayReturn s t → HasQuota s t
        → allocation i s (quota_in s t) (cap_address (register (thread s t) 11)) ≡ Refused n
        → allocate i s t ≡ tells s t (code n) }
    ensures hands_out { (i : Image) (s : State) (t : ℕ) (r : Object)
        → MayReturn s t → HasQuota s t
        → allocation i s (quota_in s t) (cap_address (register (thread s t) 11)) ≡ Made r
        → allocate i s t ≡ hands_out s t r (object_cap r) }
    ensures no_object { (i : Image) (s : State) (t : ℕ)
        → MayReturn s t → HasQuota s t
        → (NamesObject s (quota_in s t) (register (thread s t) 11) → ⊥)
        → free i s t ≡ tells s t (code 6) }
    ensures freed { (i : Image) (s : State) (t : ℕ)
        → MayReturn s t → HasQuota s t
        → NamesObject s (quota_in s t) (register (thread s t) 11)
        → (r : Object) × Any (λ q. q ≡ r) s.objects
        × IsWholeOf (quota_in s t) (register (thread s t) 11) r
        × (free i s t ≡ gives_back i s t r) }
    ensures remaining { (i : Image) (s : State) (t : ℕ)
        → MayReturn s t → HasQuota s t
        → remaining i s t
        ≡ tells s t (integer ((root i (quota_in s t)).limit - charges (quota_in s t) s.objects)) }
{}

/// What token_key, token_new and token_free answer a caller that may return and names a quota in c10,
/// where they find exactly the keys and tokens that are sealed so. A key is an object of 8 bytes, and answers
/// what its allocation comes to, sealed, with a row of its own. token_new answers -7 where c12 is no
/// key; else what an allocation of c11 comes to, sealed, with a row that names the key. token_free
/// answers -7 where c11 is no key, else -8 where c12 is no token of it, else -6 where the token is
/// charged to another quota, and else gives it back.
pub fn tokens_answer()
    ensures key_refused { (i : Image) (s : State) (t n : ℕ)
        → MayReturn s t → HasQuota s t → allocation i s (quota_in s t) 8 ≡ Refused n
        → token_key i s t ≡ tells s t (code n) }
    ensures key_made { (i : Image) (s : State) (t : ℕ) (r : Object)
        → MayReturn s t → HasQuota s t → allocation i s (quota_in s t) 8 ≡ Made r
        → token_key i s t ≡ hands_out (with_row s r None) t r (sealed_token r) }
    ensures new_no_key { (i : Image) (s : State) (t : ℕ)
        → MayReturn s t → HasQuota s t → FindsSealed s
        → ((key : Object) → IsKeyIn s (register (thread s t) 12) key → ⊥)
        → token_new i s t ≡ tells s t (code 7) }
    ensures new_refused { (i : Image) (s : State) (t n : ℕ) (key : Object)
        → MayReturn s t → HasQuota s t → FindsSealed s
        → IsKeyIn s (register (thread s t) 12) key
        → allocation i s (quota_in s t) (cap_address (register (thread s t) 11)) ≡ Refused n
        → token_new i s t ≡ tells s t (code n) }
    ensures new_made { (i : Image) (s : State) (t : ℕ) (key r : Object)
        → MayReturn s t → HasQuota s t → FindsSealed s
        → IsKeyIn s (register (thread s t) 12) key
        → allocation i s (quota_in s t) (cap_address (register (thread s t) 11)) ≡ Made r
        → token_new i s t ≡ hands_out (with_row s r (Some key.number)) t r (sealed_token r) }
    ensures free_no_key { (i : Image) (s : State) (t : ℕ)
        → MayReturn s t → HasQuota s t → FindsSealed s
        → ((key : Object) → IsKeyIn s (register (thread s t) 11) key → ⊥)
        → token_free i s t ≡ tells s t (code 7) }
    ensures free_no_token { (i : Image) (s : State) (t : ℕ) (key : Object)
        → MayReturn s t → HasQuota s t → FindsSealed s
        → IsKeyIn s (register (thread s t) 11) key
        → ((token : Object) → IsTokenIn s key.number (register (thread s t) 12) token → ⊥)
        → token_free i s t ≡ tells s t (code 8) }
    ensures free_other { (i : Image) (s : State) (t : ℕ) (key token : Object)
        → MayReturn s t → HasQuota s t → FindsSealed s
        → IsKeyIn s (register (thread s t) 11) key
        → IsTokenIn s key.number (register (thread s t) 12) token
        → (token.quota ≡ quota_in s t → ⊥) → token_free i s t ≡ tells s t (code 6) }
    ensures freed { (i : Image) (s : State) (t : ℕ) (key token : Object)
        → MayReturn s t → HasQuota s t → FindsSealed s
        → IsKeyIn s (register (thread s t) 11) key
        → IsTokenIn s key.number (register (thread s t) 12) token
        → token.quota ≡ quota_in s t → token_free i s t ≡ gives_back i s t token }
{}

/// A yield stops its thread and leaves it ready (`yields`). A sleep of n ticks (`sleep`) is over after n ticks
/// (`over`), and not before (`before`); one of none leaves its thread ready. A wait answers -21 where the word differs
/// from the value (`differs`), and else the thread waits for it (`waits`). Of two threads that wait for a word the one
/// of the lower number wakes where the other does (`lower`); a thread that doesn't wait for the word isn't woken
/// (`waited`); and as many wake as are asked for, or all that wait for it where these are fewer (`counted`). The
/// routine answers their number, and wakes them, and does nothing else (`answers`).
pub fn scheduler_routines_answer()
    ensures yields { (s : State) (t : ℕ) → MayReturn s t → yield s t ≡ stops s t Ready }
    ensures sleep { (s : State) (t : ℕ)
        → MayReturn s t
        → sleep s t ≡ stops s t (asleep (cap_address (register (thread s t) 10))) }
    ensures before { (n k : ℕ) → k < n → after_ticks k (asleep n) ≡ Sleeping (n - k) }
    ensures over { (n : ℕ) → after_ticks n (asleep n) ≡ Ready }
    ensures differs { (i : Image) (s : State) (t : ℕ)
        → MayReturn s t → first_failed (word_checks i s (register (thread s t) 10)) ≡ None
        → (loaded s.granules (cap_address (register (thread s t) 10) - i.ram) 4
        ≡ cap_address (register (thread s t) 11) → ⊥)
        → wait i s t ≡ tells s t (code 21) }
    ensures waits { (i : Image) (s : State) (t : ℕ)
        → MayReturn s t → first_failed (word_checks i s (register (thread s t) 10)) ≡ None
        → loaded s.granules (cap_address (register (thread s t) 10) - i.ram) 4
        ≡ cap_address (register (thread s t) 11)
        → wait i s t ≡ stops s t (Waiting (cap_address (register (thread s t) 10))) }
    ensures lower { (address most t u : ℕ) (statuses : List Status)
        → u ≤ t → waits_for address (status_of statuses u) ≡ true
        → wakes address most statuses t ≡ true → wakes address most statuses u ≡ true }
    ensures waited { (address most t : ℕ) (statuses : List Status)
        → wakes address most statuses t ≡ true → waits_for address (status_of statuses t) ≡ true }
    ensures counted { (address most : ℕ) (statuses : List Status)
        → count_by (wakes address most statuses) (range_with_len 0 (length statuses))
        ≡ min most (count_by (waits_for address) statuses) }
    ensures answers { (i : Image) (s x : State) (t n : ℕ)
        → MayReturn s t → first_failed (word_checks i s (register (thread s t) 10)) ≡ None
        → n ≡ min (cap_address (register (thread s t) 11))
        (count_by (waits_for (cap_address (register (thread s t) 10))) (statuses_of s.threads))
        → x ≡ answers s t (integer n)
        → wake i s t ≡ Leaves (record x {
          threads = with_statuses x.threads
              (woken (cap_address (register (thread s t) 10))
              (cap_address (register (thread s t) 11)) (statuses_of s.threads));
        }) None }
{}
