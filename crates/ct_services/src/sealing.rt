//! Keys and tokens.

ghost use Rattle.std.specs.Prelude.{ℕ, ◌≡◌, ◌≤◌, ◌<◌, Some, None, MatchResult, length, true};
ghost use Rattle.std.specs.List.{list_any};
ghost use Rattle.def_machine.specs.Rows.{RowsFit};
ghost use Rattle.def_profile.specs.declared.limits.TheConstants.{MOST_STEPS};
ghost use Rattle.def_words.specs.Authority.{cap_address};
ghost use Rattle.def_machine.specs.Image.{Image};
ghost use Rattle.def_machine.specs.State.{State, register, thread};
ghost use Rattle.def_step.specs.Quotas.{allocation};
ghost use Rattle.def_step.specs.Routines as routine;
ghost use Rattle.def_step.specs.Tokens as tokens;
ghost use Rattle.def_step.specs.Tokens.{is_key_row, sealed_object, as_token, key_of, token_object};
ghost use Rattle.ct_heap.specs.Lookups.{found_as};
ghost use Rattle.ct_services.specs.Arguments.{NamesQuota, NamesThisKey};
ghost use Rattle.ct_services.specs.Serves.{ServesAlone};

use crate::answering::{refuse, tell};
use crate::granting::{base_of, capability, decline, free_whole, hand_out, quota_named};
use ct_cap::Live;
use ct_engine::{Engine, Found};
use ct_execute::Ran;
use ct_mem::Memory;
use ct_switch::return_trap;
use ct_token::opened;
use def_profile::answers::{NO_KEY, NO_OBJECT, NO_TOKEN};
use def_profile::layout::GRANULE;
use def_profile::seals::TOKEN_TYPE;

/// The live object that a capability is the whole of, where it is sealed as a key or a token.
fn sealed_in<M: Memory + Drop>(engine: &Engine<M>, c: Live) -> Option<Found>
    ensures { result
        ≡ found_as engine.now.state.objects (sealed_object engine.now.state.objects c) }
{
    if !c.cap.tag || c.seal != TOKEN_TYPE {
        return None;
    }
    engine.find(base_of(c), c.bounds.top)
}

/// The number of the live key that a register is. The error is what any routine of a key comes to where there is none:
/// the running thread goes on with -7.
fn key_named<M: Memory + Drop>(engine: &mut Engine<M>, t: u32, n: u32) -> Result<u32, Ran>
    requires runs { engine.old.state.running ≡ Some t }
    requires register { n < 16 }
    ensures { MatchResult result (NamesThisKey engine.old engine.new t n)
        (λ ran. (x : Image → State → ℕ → routine.Ran)
        → ServesAlone engine.old engine.new ran
        (λ i m. tokens.by_key m t (key_of m (register (thread m t) n)) (x i m))) }
{
    match sealed_in(engine, engine.register(t, n)) {
        Some(found) => {
            if engine.is_key(found.object.number) {
                Ok(found.object.number)
            } else {
                Err(refuse(engine, t, NO_KEY))
            }
        }
        None => Err(refuse(engine, t, NO_KEY)),
    }
}

/// The live token that a capability is of, where it was made with this key.
fn token_in<M: Memory + Drop>(engine: &Engine<M>, key: u32, c: Live) -> Option<Found>
    requires { list_any (is_key_row key) engine.now.state.tokens ≡ true }
    ensures { result
        ≡ found_as engine.now.state.objects
        (as_token engine.now.state.tokens key (sealed_object engine.now.state.objects c)) }
{
    match sealed_in(engine, c) {
        Some(found) => {
            if engine.opens(key, found.object.number) {
                Some(found)
            } else {
                None
            }
        }
        None => None,
    }
}

/// An object with a row is charged to a quota, and handed out sealed: a key where no key is named, else a token of
/// this key.
fn seal_new<M: Memory + Drop>(
    engine: &mut Engine<M>,
    t: u32,
    quota: u32,
    size: u32,
    key: Option<u32>,
) -> Ran
    requires runs { engine.old.state.running ≡ Some t }
    requires quota { quota < length engine.old.limits }
    requires few { engine.old.state.next ≤ MOST_STEPS }
    requires rows { RowsFit engine.old.state.objects engine.old.state.tokens }
    ensures { ServesAlone engine.old engine.new result
        (λ i m. tokens.made_token m t key (allocation i m quota size)) }
{
    match engine.allocate_sealed(quota, size, key) {
        Ok(object) => hand_out(
            engine,
            t,
            quota,
            object,
            capability(quota, object, TOKEN_TYPE),
        ),
        Err(why) => decline(engine, t, why),
    }
}

/// Token_key: a new key, an object of eight bytes that is charged to the quota that c10 names. The running thread goes
/// on with its capability, sealed: no routine opens it or frees the key.
///
/// It goes on with -1 exactly where c10 is no quota; else as `allocate` refuses those bytes. The trap is the check of
/// c1 that fails; then nothing changes.
///
/// Condition: each row is of a live object, and no two are of one.
pub(crate) fn token_key<M: Memory + Drop>(engine: &mut Engine<M>, t: u32) -> Ran
    requires runs { engine.old.state.running ≡ Some t }
    requires quota { NamesQuota engine.old t }
    requires few { engine.old.state.next ≤ MOST_STEPS }
    requires rows { RowsFit engine.old.state.objects engine.old.state.tokens }
    ensures { ServesAlone engine.old engine.new result (λ i m. tokens.token_key i m t) }
{
    match quota_named(engine, t) {
        Ok(quota) => seal_new(engine, t, quota, GRANULE, None),
        Err(ran) => ran,
    }
}

/// A token of the key that c12 is, of as many bytes as c11's address says, is charged to a quota.
fn make_token<M: Memory + Drop>(engine: &mut Engine<M>, t: u32, quota: u32) -> Ran
    requires runs { engine.old.state.running ≡ Some t }
    requires quota { quota < length engine.old.limits }
    requires few { engine.old.state.next ≤ MOST_STEPS }
    requires rows { RowsFit engine.old.state.objects engine.old.state.tokens }
    ensures { ServesAlone engine.old engine.new result
        (λ i m. tokens.by_key m t (key_of m (register (thread m t) 12))
        (λ key. tokens.made_token m t (Some key)
        (allocation i m quota (cap_address (register (thread m t) 11))))) }
{
    match key_named(engine, t, 12) {
        Ok(key) => {
            let size = engine.register(t, 11).address();
            seal_new(engine, t, quota, size, Some(key))
        }
        Err(ran) => ran,
    }
}

/// Token_new: a new token of the key that c12 is, an object of as many bytes as c11's address says, charged to the
/// quota that c10 names. The running thread goes on with its capability, sealed.
///
/// It goes on with -1 exactly where c10 is no quota; else with -7 where c12 is no live key; else as `allocate` refuses
/// those bytes. The trap is the check of c1 that fails; then nothing changes.
///
/// Condition: each row is of a live object, and no two are of one.
pub(crate) fn token_new<M: Memory + Drop>(engine: &mut Engine<M>, t: u32) -> Ran
    requires runs { engine.old.state.running ≡ Some t }
    requires quota { NamesQuota engine.old t }
    requires few { engine.old.state.next ≤ MOST_STEPS }
    requires rows { RowsFit engine.old.state.objects engine.old.state.tokens }
    ensures { ServesAlone engine.old engine.new result (λ i m. tokens.token_new i m t) }
{
    match quota_named(engine, t) {
        Ok(quota) => make_token(engine, t, quota),
        Err(ran) => ran,
    }
}

/// The token that c11 is, where it is one of this key, is opened.
fn open_token<M: Memory + Drop>(engine: &mut Engine<M>, t: u32, key: u32) -> Ran
    requires runs { engine.old.state.running ≡ Some t }
    requires key { list_any (is_key_row key) engine.old.state.tokens ≡ true }
    ensures { ServesAlone engine.old engine.new result
        (λ i m. tokens.opens m t (register (thread m t) 11)
        (token_object m key (register (thread m t) 11))) }
{
    let c = engine.register(t, 11);
    match token_in(engine, key, c) {
        Some(_) => tell(engine, t, opened(c)),
        None => refuse(engine, t, NO_TOKEN),
    }
}

/// The token that c11 is, of the key that c10 is, is opened.
fn open_by_key<M: Memory + Drop>(engine: &mut Engine<M>, t: u32) -> Ran
    requires { engine.old.state.running ≡ Some t }
    ensures { ServesAlone engine.old engine.new result
        (λ i m. tokens.by_key m t (key_of m (register (thread m t) 10))
        (λ key. tokens.opens m t (register (thread m t) 11)
        (token_object m key (register (thread m t) 11)))) }
{
    match key_named(engine, t, 10) {
        Ok(key) => open_token(engine, t, key),
        Err(ran) => ran,
    }
}

/// Token_open: the running thread goes on with the capability in c11 without its seal, where that is a live token of
/// the key that c10 is. Its tag, root, source and all else stay.
///
/// It goes on with -7 exactly where c10 is no live key; else with -8 where c11 is no live token of it. The trap is the
/// check of c1 that fails; then nothing changes.
pub(crate) fn token_open<M: Memory + Drop>(engine: &mut Engine<M>, t: u32) -> Ran
    requires { engine.old.state.running ≡ Some t }
    ensures { ServesAlone engine.old engine.new result (λ i m. tokens.token_open m t) }
{
    match return_trap(engine.register(t, 1)) {
        Some(trap) => Ran::Trapped { trap },
        None => open_by_key(engine, t),
    }
}

/// The token that c12 is, where it is one of this key, is freed.
fn free_token<M: Memory + Drop>(engine: &mut Engine<M>, t: u32, quota: u32, key: u32) -> Ran
    requires runs { engine.old.state.running ≡ Some t }
    requires quota { quota < length engine.old.limits }
    requires key { list_any (is_key_row key) engine.old.state.tokens ≡ true }
    ensures { ServesAlone engine.old engine.new result
        (λ i m. tokens.frees_token i m t quota
        (token_object m key (register (thread m t) 12))) }
{
    let c = engine.register(t, 12);
    match token_in(engine, key, c) {
        Some(found) => {
            if found.quota != quota {
                return refuse(engine, t, NO_OBJECT);
            }
            free_whole(engine, t, quota, base_of(c), c.bounds.top)
        }
        None => refuse(engine, t, NO_TOKEN),
    }
}

/// The token that c12 is, of the key that c11 is, is freed.
fn take_token<M: Memory + Drop>(engine: &mut Engine<M>, t: u32, quota: u32) -> Ran
    requires runs { engine.old.state.running ≡ Some t }
    requires quota { quota < length engine.old.limits }
    ensures { ServesAlone engine.old engine.new result
        (λ i m. tokens.by_key m t (key_of m (register (thread m t) 11))
        (λ key. tokens.frees_token i m t quota
        (token_object m key (register (thread m t) 12)))) }
{
    match key_named(engine, t, 11) {
        Ok(key) => free_token(engine, t, quota, key),
        Err(ran) => ran,
    }
}

/// Token_free: the live token that c12 is, of the key that c11 is, is freed, where it is charged to the quota that c10
/// names. The running thread's registers pass the load filter, and it goes on with 0.
///
/// It goes on with -1 exactly where c10 is no quota; else with -7 where c11 is no live key; else with -8 where c12 is
/// no live token of it; else with -6 where the token is charged to another quota. The trap is the check of c1 that
/// fails; then nothing changes.
pub(crate) fn token_free<M: Memory + Drop>(engine: &mut Engine<M>, t: u32) -> Ran
    requires runs { engine.old.state.running ≡ Some t }
    requires quota { NamesQuota engine.old t }
    ensures { ServesAlone engine.old engine.new result (λ i m. tokens.token_free i m t) }
{
    match quota_named(engine, t) {
        Ok(quota) => take_token(engine, t, quota),
        Err(ran) => ran,
    }
}
