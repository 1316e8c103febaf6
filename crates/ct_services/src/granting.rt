//! Allocate, free and remaining.

ghost use Rattle.std.specs.Prelude.{◌≡◌, ◌≤◌, ◌<◌, Some, length, find, MatchResult};
ghost use Rattle.ct_entry.specs.declared.acts.Act.TheVariants.{Allocate};
ghost use Rattle.def_profile.specs.declared.limits.TheConstants.{MOST_STEPS};
ghost use Rattle.def_words.specs.Authority.{cap_base};
ghost use Rattle.def_profile.specs.declared.rights.TheConstants as rights;
ghost use Rattle.def_words.specs.Derive.{derive, memory_root};
ghost use Rattle.def_machine.specs.Objects.{has_quarantined};
ghost use Rattle.def_step.specs.Quotas as quotas;
ghost use Rattle.def_step.specs.Quotas.{allocation, is_quota_cap};
ghost use Rattle.def_step.specs.Routines as routine;
ghost use Rattle.ct_heap.specs.Lookups.{spans_of};
ghost use Rattle.ct_engine.specs.Grants.{refusal_code};
ghost use Rattle.ct_execute.specs.declared.ran.Ran.TheVariants.{Went};
ghost use Rattle.ct_execute.specs.Deciding.{act_by};
ghost use Rattle.ct_services.specs.Arguments.{NamesQuota, NamesThisQuota};
ghost use Rattle.ct_services.specs.Answering.{answered_in};
ghost use Rattle.ct_services.specs.Serves.{Routine, ServesAlone};

use crate::answering::{answer, refuse, tell};
use ct_cap::{Live, Shadow, derive};
use ct_engine::{Engine, HeapRefusal, NotWhole, Object};
use ct_entry::Act;
use ct_execute::{ActBy, Ran};
use ct_mem::Memory;
use ct_switch::return_trap;
use def_profile::answers::{NO_OBJECT, NO_PLACE, NO_PLACE_YET, NO_QUOTA, NO_SIZE, PAST_LIMIT};
use def_profile::rights::{HEAP_RIGHTS, MEMORY_ROOT};
use def_profile::seals::QUOTA_TYPE;

/// Whether a capability is a quota's.
fn is_quota(c: Live) -> bool
    ensures { result ≡ is_quota_cap c }
{
    c.cap.tag && c.seal == QUOTA_TYPE
}

/// The quota's entry that c10 names. The error is what any routine of a quota comes to where there is none: the trap at
/// the check of c1 that fails, or the running thread goes on with -1.
pub(crate) fn quota_named<M: Memory + Drop>(engine: &mut Engine<M>, t: u32) -> Result<u32, Ran>
    requires { engine.old.state.running ≡ Some t }
    ensures { MatchResult result (NamesThisQuota engine.old engine.new t)
        (λ ran. (x : Routine)
        → ServesAlone engine.old engine.new ran (λ i m. quotas.by_quota m t (x i m))) }
{
    if let Some(trap) = return_trap(engine.register(t, 1)) {
        return Err(Ran::Trapped { trap });
    }
    let c = engine.register(t, 10);
    if is_quota(c) {
        Ok(c.cap.shadow.root)
    } else {
        Err(refuse(engine, t, NO_QUOTA))
    }
}

/// The capability of an object, sealed as a type where that isn't 0: its quota's entry is the root, its number the
/// source.
#[tactic(auto, unfolding(def_words::specs::Derive::memory_root))]
pub(crate) fn capability(quota: u32, object: Object, kind: u32) -> Live
    ensures { result
        ≡ derive memory_root object.base object.length rights.HEAP_RIGHTS object.base kind
        (record { root = quota; source = object.number }) }
{
    derive(
        MEMORY_ROOT,
        object.base,
        object.length,
        HEAP_RIGHTS,
        object.base,
        kind,
        Shadow {
            root: quota,
            source: object.number,
        },
    )
}

/// What an allocation's refusal answers, negated; `waits` tells whether something is quarantined.
fn refused(why: HeapRefusal, waits: bool) -> u32
    ensures is { result ≡ refusal_code why waits }
    ensures some { 0 < result }
{
    match why {
        HeapRefusal::Size => NO_SIZE,
        HeapRefusal::Quota => PAST_LIMIT,
        HeapRefusal::NoGap => { if waits { NO_PLACE_YET } else { NO_PLACE } }
    }
}

/// The running thread goes on with -2 to -5 after an allocation was refused, and nothing else happened.
pub(crate) fn decline<M: Memory + Drop>(engine: &mut Engine<M>, t: u32, why: HeapRefusal) -> Ran
    requires { engine.old.state.running ≡ Some t }
    ensures { ServesAlone engine.old engine.new result
        (λ i m. routine.tells m t
        (routine.code (refusal_code why (has_quarantined m.objects)))) }
{
    let waits = engine.quarantined();
    refuse(engine, t, refused(why, waits))
}

/// The running thread goes on with an object's capability, as it is handed out, and the object is told.
pub(crate) fn hand_out<M: Memory + Drop>(
    engine: &mut Engine<M>,
    t: u32,
    quota: u32,
    object: Object,
    value: Live,
) -> Ran
    requires { engine.old.state.running ≡ Some t }
    ensures engine { engine.new ≡ answered_in engine.old t value }
    ensures told { result
        ≡ Went (Some (act_by quota
        (Allocate object.number object.base object.length object.live))) }
{
    answer(engine, t, value);
    Ran::Went {
        done: Some(ActBy {
            act: Act::Allocate {
                number: object.number,
                base: object.base,
                length: object.length,
                live: object.live,
            },
            entry: quota,
        }),
    }
}

/// An object of so many bytes is charged to a quota.
fn grant<M: Memory + Drop>(engine: &mut Engine<M>, t: u32, quota: u32, size: u32) -> Ran
    requires runs { engine.old.state.running ≡ Some t }
    requires quota { quota < length engine.old.limits }
    requires few { engine.old.state.next ≤ MOST_STEPS }
    ensures { ServesAlone engine.old engine.new result
        (λ i m. quotas.allocated m t (allocation i m quota size)) }
{
    match engine.allocate(quota, size) {
        Ok(object) => hand_out(engine, t, quota, object, capability(quota, object, 0)),
        Err(why) => decline(engine, t, why),
    }
}

/// Allocate: an object of as many bytes as c11's address says, charged to the quota that c10 names, at the least
/// lawful place. The running thread goes on with its capability.
///
/// It goes on with -1 exactly where c10 is no quota; else with -4 where the size is zero or above the heap's length;
/// else with -2 where the quota's limit would be passed; else, where no place is lawful, with -5 where an object is
/// quarantined and with -3 where none is. The trap is the check of c1 that fails; then nothing changes.
pub(crate) fn allocate<M: Memory + Drop>(engine: &mut Engine<M>, t: u32) -> Ran
    requires runs { engine.old.state.running ≡ Some t }
    requires quota { NamesQuota engine.old t }
    requires few { engine.old.state.next ≤ MOST_STEPS }
    ensures { ServesAlone engine.old engine.new result (λ i m. quotas.allocate i m t) }
{
    match quota_named(engine, t) {
        Ok(quota) => {
            let size = engine.register(t, 11);
            grant(engine, t, quota, size.address())
        }
        Err(ran) => ran,
    }
}

/// Where a capability begins.
#[tactic(auto, unfolding(def_words::specs::Authority::cap_bounds))]
pub(crate) fn base_of(c: Live) -> u32
    ensures { result ≡ cap_base c }
{
    c.bounds.base as u32
}

/// The live object of a quota with exactly these bounds is freed, and the running thread goes on with 0; with -6
/// where there is none.
pub(crate) fn free_whole<M: Memory + Drop>(
    engine: &mut Engine<M>,
    t: u32,
    quota: u32,
    base: u32,
    top: u64,
) -> Ran
    requires runs { engine.old.state.running ≡ Some t }
    requires quota { quota < length engine.old.limits }
    ensures { ServesAlone engine.old engine.new result
        (λ i m. quotas.freed_as i m t (find (spans_of quota base top) m.objects)) }
{
    match engine.free(t, quota, base, top) {
        Ok(object) => {
            answer(engine, t, Live::integer(0));
            Ran::Went {
                done: Some(ActBy {
                    act: Act::Free {
                        number: object.number,
                        base: object.base,
                        length: object.length,
                        live: object.live,
                    },
                    entry: quota,
                }),
            }
        }
        Err(NotWhole) => refuse(engine, t, NO_OBJECT),
    }
}

/// The live object of a quota that a capability is the whole of, tagged and unsealed, is freed.
fn free_named<M: Memory + Drop>(engine: &mut Engine<M>, t: u32, quota: u32, c: Live) -> Ran
    requires runs { engine.old.state.running ≡ Some t }
    requires quota { quota < length engine.old.limits }
    ensures { ServesAlone engine.old engine.new result
        (λ i m. quotas.freed_as i m t (quotas.whole_of m.objects quota c)) }
{
    if !c.cap.tag || c.seal != 0 {
        return refuse(engine, t, NO_OBJECT);
    }
    free_whole(engine, t, quota, base_of(c), c.bounds.top)
}

/// Free: the live object that c11, tagged and unsealed, is the whole capability of, and that is charged to the quota
/// that c10 names. The running thread's registers pass the load filter, and it goes on with 0.
///
/// It goes on with -1 exactly where c10 is no quota; else with -6 where there is no such object. The trap is the check
/// of c1 that fails; then nothing changes.
pub(crate) fn free<M: Memory + Drop>(engine: &mut Engine<M>, t: u32) -> Ran
    requires runs { engine.old.state.running ≡ Some t }
    requires quota { NamesQuota engine.old t }
    ensures { ServesAlone engine.old engine.new result (λ i m. quotas.free i m t) }
{
    match quota_named(engine, t) {
        Ok(quota) => {
            let c = engine.register(t, 11);
            free_named(engine, t, quota, c)
        }
        Err(ran) => ran,
    }
}

/// Remaining: the running thread goes on with what the quota that c10 names may still take, in bytes, or with -1
/// exactly where c10 is no quota. The trap is the check of c1 that fails; then nothing changes.
pub(crate) fn remaining<M: Memory + Drop>(engine: &mut Engine<M>, t: u32) -> Ran
    requires runs { engine.old.state.running ≡ Some t }
    requires quota { NamesQuota engine.old t }
    ensures { ServesAlone engine.old engine.new result (λ i m. quotas.remaining i m t) }
{
    match quota_named(engine, t) {
        Ok(quota) => {
            let left = engine.remaining(quota);
            tell(engine, t, Live::integer(left))
        }
        Err(ran) => ran,
    }
}
