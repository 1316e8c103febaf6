//! A thread's row, and how a thread starts.

ghost use Rattle.std.specs.Prelude.{◌≡◌, ◌+◌, ◌*◌, ◌<◌, ◌≤◌, ℕ, true, length};
ghost use Rattle.def_profile.specs.declared.limits.TheConstants.{RAM_END};
ghost use Rattle.def_memory.specs.Granules.{plain, cap_in, holding};
ghost use Rattle.def_areas.specs.Areas.{frame_place};
ghost use Rattle.def_areas.specs.Touches.{Touches};
ghost use Rattle.ct_areas.specs.Threads.{HasArea, area_begin, area_end, thread_of};
ghost use Rattle.ct_areas.specs.Starts.{first_of, first_row};

use crate::areas::{frame_offset, plain};
use crate::frames::word;
use ct_cap::{Live, Posture};
use ct_mem::Memory;

/// Where RAM begins, and where a thread's stack and its area of the trusted region lie: addresses, and lengths in
/// bytes.
#[derive(Clone, Copy, PartialEq, Eq, Drop)]
pub struct Area {
    pub ram: u32,
    pub stack: u32,
    pub stack_length: u32,
    pub trusted: u32,
    pub trusted_length: u32,
}

/// How a thread starts: its program counter capability, its registers, its posture, the index of the compartment that
/// it enters, and the entry number of the export by which it does.
#[derive(Clone, Copy, Drop)]
pub struct First {
    pub pcc: Live,
    pub regs: [Live; 16],
    pub posture: Posture,
    pub actor: u32,
    pub export: u32,
}

/// A thread before its first step: how it starts, and where its stack and its area lie.
#[derive(Drop)]
pub struct Fresh {
    pub first: First,
    pub area: Area,
}

/// What is kept of a thread beside its area: program counter capability, registers and posture, how many frames it
/// has, and of the innermost its top, its compartment, and whether its error handler was entered.
///
/// The frames stand in the area (docs/build/inside.md). So do program counter capability and registers from when the
/// thread is put away until it is picked, and those of a thread that never was picked from its start. A thread without
/// frames has ended.
#[derive(Drop)]
pub struct Thread {
    pub pcc: Live,
    pub regs: [Live; 16],
    pub posture: Posture,
    pub depth: u32,
    pub top: u32,
    pub actor: u32,
    pub handling: bool,
    pub area: Area,
}

impl Thread {
    /// A thread as it starts, with one frame, whose top is the stack's end.
    ///
    /// The export is written into the area, which reads as zero. No memory is taken, and nothing is refused.
    pub fn new<M: Memory>(mem: &mut M, fresh: &Fresh) -> Thread
        requires area { HasArea (8 * length (M.granules mem.old)) fresh.now.area }
        requires clear { (k : ℕ) → area_begin fresh.now.area ≤ k → k < area_end fresh.now.area
            → cap_in (M.granules mem.old) k ≡ plain 0 }
        requires end { fresh.now.area.stack + fresh.now.area.stack_length ≤ RAM_END }
        ensures thread { thread_of (M.granules mem.new) true result ≡ first_of fresh.now }
        ensures memory { M.granules mem.new
            ≡ holding (M.granules mem.old) (frame_place (area_begin fresh.now.area) 0 + 5)
            (plain fresh.now.first.export) }
        ensures touches { Touches (area_begin fresh.now.area) (area_end fresh.now.area)
            (M.granules mem.old) (M.granules mem.new) }
        ensures row { result ≡ first_row fresh.now }
    {
        let at = frame_offset(&fresh.area, 0, mem);
        let _export = word(fresh.first.export);
        mem.store_cap(at + 40, plain(fresh.first.export as u64));
        Thread {
            pcc: fresh.first.pcc,
            regs: fresh.first.regs,
            posture: fresh.first.posture,
            depth: 1,
            top: fresh.area.stack + fresh.area.stack_length,
            actor: fresh.first.actor,
            handling: false,
            area: fresh.area,
        }
    }
}
