//! The front of a sweep that runs.

ghost use Rattle.std.specs.Prelude.{ℕ, ◌≡◌, ◌+◌, ◌*◌, ◌≤◌, ◌↔◌, length, min, IsSome, IsTrue, Option, Some, None, unwrap_or, is_some};
ghost use Rattle.ct_revoke.specs.Slices.{CleanFrom, IsSliced, SlicesHeap};

use crate::sweeping::pass;
use ct_mem::Memory;
use std::marker::Model;

/// How far the running sweep has come: an offset in RAM, in bytes; or that none runs.
#[derive(Drop)]
pub struct Front {
    at: Option<u32>,
}

impl Model for Front {
    ghost use Rattle.std.specs.Prelude.{ℕ, Option};

    ghost Value = { Option ℕ };

    ghost view = { λ f. f.at };
}

impl Front {
    /// No sweep runs.
    pub fn idle() -> Front
        ensures { result ≡ None }
    {
        Front { at: None }
    }

    /// Whether a sweep runs.
    pub fn running(&self) -> bool
        ensures { result ≡ is_some self.now }
    {
        self.at.is_some()
    }

    /// Where the front is; 0 while no sweep runs.
    pub fn at(&self) -> u32
        ensures { result ≡ unwrap_or self.now 0 }
    {
        self.at.unwrap_or(0)
    }

    /// A sweep begins, with its front at 0. None runs before.
    pub fn begin(&mut self)
        requires { self.old ≡ None }
        ensures { self.new ≡ Some 0 }
    {
        self.at = Some(0);
    }

    /// Passes `count` granules of memory from the front on, or those that are left: of them, each
    /// capability whose base lies in a marked granule loses its tag. Nothing else changes. A sweep
    /// runs, and its front lies in RAM or at its end; RAM begins at the address `ram`.
    pub fn slice<M: Memory>(&mut self, mem: &mut M, ram: u32, count: u32)
        requires running { IsSome self.old }
        requires inside { unwrap_or self.old 0 ≤ 8 * length (M.granules mem.old) }
        ensures front { self.new
            ≡ Some (min (unwrap_or self.old 0 + 8 * count) (8 * length (M.granules mem.old))) }
        ensures sliced { IsSliced ram (unwrap_or self.old 0) (unwrap_or self.new 0)
            (M.granules mem.old) (M.granules mem.new) }
        ensures heap { SlicesHeap ram (unwrap_or self.old 0) (unwrap_or self.new 0)
            (M.granules mem.old) (M.granules mem.new) }
        ensures clean { CleanFrom ram (unwrap_or self.old 0) (unwrap_or self.new 0)
            (M.granules mem.new) }
    {
        let low = self.at();
        let high = slice_end(low, count, mem.size());
        pass(mem, ram, low, high);
        self.at = Some(high);
    }

    /// Whether a sweep runs and has come to the end of RAM, which has `size` bytes.
    pub fn finished(&self, size: u32) -> bool
        ensures { IsTrue result ↔ (self.now ≡ Some size) }
    {
        match self.at {
            Some(at) => at == size,
            None => false,
        }
    }

    /// The sweep ends.
    pub fn end(&mut self)
        ensures { self.new ≡ None }
    {
        self.at = None;
    }
}

/// Where a slice of `count` granules ends in RAM of `size` bytes.
fn slice_end(low: u32, count: u32, size: u32) -> u32
    ensures { result ≡ min (low + 8 * count) size }
{
    let end = u64::from(low) + 8 * u64::from(count);
    end.min(u64::from(size)) as u32
}
