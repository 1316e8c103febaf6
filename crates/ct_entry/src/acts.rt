//! Deeds: what running code did that the report must account for, and the totals of a run.

/// What was done. Addresses and lengths are bytes; a `value` is cut to its width of 1, 2, 4 or 8.
#[derive(Clone, Copy, PartialEq, Eq, Drop)]
pub enum Act {
    /// A compartment call through the switcher, of the export with this entry number.
    Call {
        export: u32,
    },
    /// A load from a device.
    Load {
        address: u32,
        width: u32,
        value: u64,
    },
    /// A store to a device.
    Store {
        address: u32,
        width: u32,
        value: u64,
    },
    /// An allocation with this number; `live` is the quota's live charges after it.
    Allocate {
        number: u32,
        base: u32,
        length: u32,
        live: u32,
    },
    /// A free of the object with this number; `live` is the quota's live charges after it.
    Free {
        number: u32,
        base: u32,
        length: u32,
        live: u32,
    },
    /// A trap: the first check that failed.
    Trap {
        cause: u32,
        code: u32,
        register: u32,
    },
}

/// A deed of a thread: the actor is the compartment of its top frame, `entry` the number of the
/// entry whose capability was used, 0 for a trap.
#[derive(Clone, Copy, PartialEq, Eq, Drop)]
pub struct Deed {
    pub thread: u32,
    pub actor: u32,
    pub entry: u32,
    pub act: Act,
}

/// The begin of a span with interrupts off, by the export with this entry number.
#[derive(Clone, Copy, PartialEq, Eq, Drop)]
pub struct Owned {
    pub thread: u32,
    pub actor: u32,
    pub export: u32,
}

/// What one event did.
#[derive(Clone, Copy, PartialEq, Eq, Drop)]
pub struct Happened {
    pub deed: Option<Deed>,
    pub off: Option<Owned>,
}

/// How a run ended: at its limit, with every thread ended, or with none that could ever run.
#[derive(Clone, Copy, Debug, PartialEq, Eq, Drop)]
pub enum End {
    Limit,
    Finished,
    Idle,
}

/// The counts of a run: events, and deeds by kind (`devices` are loads and stores together).
#[derive(Clone, Copy, PartialEq, Eq, Drop)]
pub struct Totals {
    pub end: End,
    pub steps: u32,
    pub ticks: u32,
    pub calls: u32,
    pub devices: u32,
    pub allocations: u32,
    pub frees: u32,
    pub traps: u32,
}
