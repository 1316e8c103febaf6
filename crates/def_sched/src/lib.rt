//! What the scheduler goes by: the statuses of threads, the order in which they were picked, and the
//! next pick. Definitions alone, in specs/.
#![tactic(auto)]

/// What a thread is doing, apart from whether it runs.
#[derive(Clone, Copy, Debug, PartialEq, Eq, Drop)]
pub enum Status {
    /// It runs, or may be picked.
    Ready,
    /// It is ready again after so many ticks.
    Sleeping(u32),
    /// It waits to be woken, for the word at this address.
    Waiting(u32),
    /// It has ended, for good.
    Ended,
}
