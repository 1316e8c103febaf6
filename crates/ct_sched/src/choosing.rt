//! The thread to pick, found by one look at each in the order of their last picks.

ghost use Rattle.std.specs.Prelude.{ℕ, ◌≡◌, ◌+◌, ◌++◌, ◌∷◌, [], ◌<◌, All, length, remove, slice_index_or, true, false, IfOk, MatchOption};
ghost use Rattle.def_sched.specs.Statuses.{is_ready, status_of};
ghost use Rattle.def_sched.specs.Picks.{first_order};
ghost use Rattle.ct_sched.specs.Choosing.{NoneReady, IsForemost};

use def_refusals::NoMemory;
use def_sched::Status;
use std::alloc::Global;

/// So many threads by their numbers, before any was picked.
pub(crate) fn first_order(alloc: Global, count: u32) -> Result<Vec<u32>, NoMemory>
    ensures { IfOk result (λ v. v.items ≡ first_order count) }
{
    let mut order = Vec::with_capacity(alloc, count as usize)?;
    for t in 0..count {
        order.push(t)?;
    }
    Ok(order)
}

/// Whether a thread of this status may be picked.
pub(crate) fn is_ready(status: Status) -> bool
    ensures { result ≡ is_ready status }
{
    matches!(status, Status::Ready)
}

/// Whether no thread may be picked.
pub(crate) fn are_idle(statuses: &[Status]) -> bool
    ensures { result ≡ true → (t : ℕ) → is_ready (status_of statuses.now t) ≡ false }
{
    for t in 0..statuses.len() {
        if is_ready(statuses[t]) {
            return false;
        }
    }
    true
}

/// Where in the order the thread to pick stands: no thread before it is ready and of the same
/// priority, and none at all is ready and of a greater one.
pub(crate) fn foremost(priorities: &[u8], statuses: &[Status], order: &[u32]) -> Option<usize>
    requires size { length priorities.now ≡ length statuses.now }
    requires below { All (λ t. t < length statuses.now) order.now }
    ensures { MatchOption result (NoneReady statuses.now order.now)
        (λ place. IsForemost priorities.now statuses.now order.now place) }
{
    let mut found = 0;
    let mut least = 0;
    for place in 0..order.len() {
        let t = order[place] as usize;
        if is_ready(statuses[t]) && priorities[t] as u32 >= least {
            found = place;
            least = priorities[t] as u32 + 1;
        }
    }
    if least == 0 { None } else { Some(found) }
}

/// Moves the thread at a place of the order to its end.
pub(crate) fn move_last(order: &mut [u32], place: usize)
    requires { place < length order.old }
    ensures { order.new ≡ remove order.old place ++ slice_index_or order.old place 0 ∷ [] }
{
    order[place..].rotate_left(1);
}
