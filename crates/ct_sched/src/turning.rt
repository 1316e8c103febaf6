//! What a tick and a wake do to all statuses.

ghost use Rattle.std.specs.Prelude.{ℕ, ◌≡◌, ◌<◌, ◌^◌, map, length, replicate, IfOk};
ghost use Rattle.def_sched.specs.declared.Status.TheVariants.{Ready};
ghost use Rattle.def_sched.specs.Statuses.{after_tick, asleep, waits_for, woken, woken_count};

use def_refusals::NoMemory;
use def_sched::Status;
use std::alloc::Global;

/// So many threads that may be picked.
pub(crate) fn all_ready(alloc: Global, count: usize) -> Result<Vec<Status>, NoMemory>
    ensures { IfOk result (λ v. v.items ≡ replicate count Ready) }
{
    Ok(vec![in alloc; Status::Ready; count]?)
}

/// Asleep for so many ticks, or ready where there are none.
pub(crate) fn asleep(ticks: u32) -> Status
    ensures { result ≡ asleep ticks }
{
    if ticks == 0 {
        Status::Ready
    } else {
        Status::Sleeping(ticks)
    }
}

/// What a tick leaves of a status.
fn ticked(status: Status) -> Status
    ensures { result ≡ after_tick status }
{
    match status {
        Status::Sleeping(ticks) => asleep(ticks.saturating_sub(1)),
        other => other,
    }
}

/// One tick for every thread.
pub(crate) fn tick_all(statuses: &mut [Status])
    ensures { statuses.new ≡ map after_tick statuses.old }
{
    for status in statuses.iter_mut() {
        *status = ticked(*status);
    }
}

/// Whether a thread of this status waits for the word at this address.
fn waits_for(status: Status, address: u32) -> bool
    ensures { result ≡ waits_for address status }
{
    match status {
        Status::Waiting(word) => word == address,
        _ => false,
    }
}

/// Wakes threads that wait for a word, those with the lowest numbers first, and counts them.
pub(crate) fn wake_some(statuses: &mut [Status], address: u32, most: u32) -> u32
    ensures statuses { statuses.new ≡ woken address most statuses.old }
    ensures count { result ≡ woken_count address most statuses.old }
{
    let mut count = 0;
    for t in 0..statuses.len() {
        if count < most && waits_for(statuses[t], address) {
            statuses[t] = Status::Ready;
            count += 1;
        }
    }
    count
}
