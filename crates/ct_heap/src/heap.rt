//! The heap and its calls.

ghost use Rattle.std.specs.Prelude.{ℕ, ◌≡◌, ◌+◌, ◌-◌, ◌*◌, ◌/◌, ◌%◌, ◌^◌, ◌≤◌, ◌<◌, List, [], Some, None, length, IfOk, OnErr, MatchResult};
ghost use Rattle.def_profile.specs.declared.limits.TheConstants.{MOST_STEPS};
ghost use Rattle.def_memory.specs.declared.Granule.{Granule};
ghost use Rattle.def_memory.specs.Granules.{plain, granule_at};
ghost use Rattle.def_machine.specs.Objects.{charges, has_quarantined};
ghost use Rattle.def_chunks.specs.Tiles.{chunks};
ghost use Rattle.def_chunks.specs.Changes.{OnlyHeads};
ghost use Rattle.def_chunks.specs.Heaps.{objects_of, account, Laid};
ghost use Rattle.ct_heap.specs.Lookups.{whole_at, whole_of, found_as, owner_of};
ghost use Rattle.ct_heap.specs.Effects.{Empty, Allocates, RefusesSize, Frees, Paints, NoneStale, Flushes, Stays, Same, AreFew, empty, range_of};
ghost use Rattle.ct_heap.specs.Steps.{Placing, Placed, Freeing, Freed};

use crate::accounts::{accounts_of, charge, discharge};
use crate::lengths::{length_for, unit_for};
use crate::rows::{Found, HeapRefusal, NotWhole, Object};
use crate::table::{name_chunk, owner, unname};
use ct_chunks::{Gap, carve, find, join, paint, read_head, set_state, write_head};
use ct_mem::Memory;
use def_chunks::heads::{LIVE, NO_CHUNK, QUARANTINED, SLOT};
use def_chunks::{Account, Range};
use def_profile::layout::CHUNK_HEAD;
use def_refusals::NoMemory;
use std::alloc::Global;
use std::marker::Model;

/// A quota heap: where it lies, what each quota is charged with, the next object's number, how many objects
/// are quarantined, and the table of used chunks. The chunks themselves stand in memory.
#[derive(Drop)]
pub struct Heap {
    range: Range,
    accounts: Vec<Account>,
    next: u32,
    waiting: u32,
    names: Vec<u16>,
}

impl Model for Heap {
    ghost use Rattle.def_chunks.specs.Heaps.{HeapRow};

    ghost Value = { HeapRow };

    ghost view = { λ h. record {
      range = h.range;
      accounts = h.accounts.items;
      next = h.next;
      waiting = h.waiting;
      names = h.names.items;
    } };
}

impl Heap {
    /// A heap of `length` bytes from `base` on in RAM from `ram` on, with one quota for each limit. No object
    /// is in it, and nothing lies in memory yet. The one error is `NoMemory`.
    pub fn new(
        alloc: Global,
        ram: u32,
        base: u32,
        length: u32,
        limits: &[u32],
    ) -> Result<Heap, NoMemory>
        requires ram { ram % 16 ≡ 0 }
        requires base { base % 16 ≡ 0 }
        requires whole { length % 16 ≡ 0 }
        requires above { ram ≤ base }
        requires small { base + length ≤ 2 ^ 32 }
        requires few { AreFew limits.now }
        ensures is { IfOk result (λ h. h ≡ empty (range_of ram base length) limits.now) }
        ensures empty { IfOk result (λ h. Empty h) }
    {
        let range = Range {
            ram,
            base,
            length,
            first: NO_CHUNK,
        };
        let accounts = accounts_of(alloc, limits)?;
        let names = vec![in alloc; 0u16; (length / SLOT) as usize]?;
        Ok(Heap {
            range,
            accounts,
            next: 1,
            waiting: 0,
            names,
        })
    }

    /// How many bytes the heap has.
    pub fn length(&self) -> u32
        ensures { result ≡ self.now.range.length }
    {
        self.range.length
    }

    /// Writes the first free chunk's head, and nothing else: the chunk is the whole heap. A heap without a byte
    /// has none.
    pub fn lay<M: Memory>(&mut self, mem: &mut M)
        requires empty { Empty self.old }
        requires inside { self.old.range.base + self.old.range.length ≤ self.old.range.ram
            + 8 * length (M.granules mem.old) }
        ensures laid { Laid self.new (M.granules mem.new) }
        ensures objects { objects_of self.new (M.granules mem.new) ≡ [] }
        ensures heads { OnlyHeads self.old.range (chunks self.new.range (M.granules mem.new))
            (M.granules mem.old) (M.granules mem.new) }
        ensures stays { Stays self.old.range [] (M.granules mem.old) (M.granules mem.new) }
        ensures same { Same self.old self.new }
        ensures next { self.new.next ≡ 1 }
    {
        let _size = mem.size();
        if self.range.length != 0 {
            write_head(
                mem,
                self.range.ram,
                self.range.base,
                self.range.length,
                NO_CHUNK,
            );
            self.range.first = 0;
        }
    }

    /// What a quota may take, and takes.
    fn account(&self, quota: u32) -> Account
        requires { quota < length self.now.accounts }
        ensures { result ≡ account self.now quota }
    {
        self.accounts[quota as usize]
    }

    /// What a quota may still take, in bytes.
    pub fn remaining(&self, quota: u32) -> u32
        requires quota { quota < length self.now.accounts }
        ensures { (gs : List Granule) → Laid self.now gs
            → result ≡ (account self.now quota).limit - charges quota (objects_of self.now gs) }
    {
        let account = self.account(quota);
        account.limit.saturating_sub(account.charged)
    }

    /// How many objects were allocated.
    pub fn made(&self) -> u32
        ensures { result ≡ self.now.next - 1 }
    {
        self.next.saturating_sub(1)
    }

    /// Whether an object is quarantined, painted or not.
    pub fn quarantined(&self) -> bool
        ensures { (gs : List Granule) → Laid self.now gs
            → result ≡ has_quarantined (objects_of self.now gs) }
    {
        self.waiting != 0
    }

    /// The quota of the object that may begin at an address, by the table.
    fn owner_of(&self, base: u32) -> Option<u32>
        requires slots { length self.now.names ≡ self.now.range.length / 16 }
        requires even { self.now.range.length % 16 ≡ 0 }
        ensures { result ≡ owner_of self.now base }
    {
        if base % 8 != 0 {
            return None;
        }
        let low = self.range.base;
        if (base as u64) < low as u64 + CHUNK_HEAD as u64 {
            return None;
        }
        let offset = base - CHUNK_HEAD - low;
        if offset >= self.range.length {
            return None;
        }
        owner(&self.names, offset)
    }

    /// The live object with exactly these bounds; `None` comes exactly where there is none.
    pub fn find<M: Memory>(&self, mem: &M, base: u32, top: u64) -> Option<Found>
        requires laid { Laid self.now (M.granules mem.now) }
        ensures { result
            ≡ found_as (objects_of self.now (M.granules mem.now))
            (whole_at base top (objects_of self.now (M.granules mem.now))) }
    {
        let quota = match self.owner_of(base) {
            Some(quota) => quota,
            None => return None,
        };
        let at = base - CHUNK_HEAD;
        let head = read_head(mem, self.range.ram, at);
        if head.state != LIVE {
            return None;
        }
        if at as u64 + head.size as u64 != top {
            return None;
        }
        let object = Object {
            number: head.rest,
            base,
            length: head.size - CHUNK_HEAD,
            live: self.account(quota).charged,
        };
        Some(Found { object, quota })
    }

    /// An object of so many bytes, charged to a quota, at the least lawful place; it reads as zero and
    /// untagged. `Size` comes exactly where the size is zero or above the heap's length; else `Quota`
    /// exactly where the quota's limit would be passed; else `NoGap` exactly where no place is lawful. A
    /// refusal changes nothing. It looks along the free chunks that lie before the place.
    pub fn allocate<M: Memory>(
        &mut self,
        mem: &mut M,
        quota: u32,
        size: u32,
    ) -> Result<Object, HeapRefusal>
        requires laid { Laid self.old (M.granules mem.old) }
        requires quota { quota < length self.old.accounts }
        requires few { self.old.next ≤ MOST_STEPS }
        ensures laid { Laid self.new (M.granules mem.new) }
        ensures answer { MatchResult result
            (λ o.
            Allocates self.old self.new (M.granules mem.old) (M.granules mem.new) quota size
            o.number o.base o.length o.live)
            (λ e. RefusesSize self.old (M.granules mem.old) quota size e) }
        ensures refused { OnErr result
            ((self.new ≡ self.old) × (M.granules mem.new ≡ M.granules mem.old)) }
        ensures quotas { length self.new.accounts ≡ length self.old.accounts }
        ensures next { self.new.next ≤ self.old.next + 1 }
    {
        if size == 0 {
            return Err(HeapRefusal::Size);
        }
        if size > self.range.length {
            return Err(HeapRefusal::Size);
        }
        let length = length_for(size);
        let account = self.account(quota);
        if account.charged as u64 + length + CHUNK_HEAD as u64 > account.limit as u64 {
            return Err(HeapRefusal::Quota);
        }
        let length = length as u32;
        match find(&self.range, mem, length, unit_for(length)) {
            Some(gap) => Ok(self.place(mem, quota, length, gap)),
            None => Err(HeapRefusal::NoGap),
        }
    }

    /// Puts an object of so many bytes into a gap.
    fn place<M: Memory>(&mut self, mem: &mut M, quota: u32, bytes: u32, gap: Gap) -> Object
        requires laid { Laid self.old (M.granules mem.old) }
        requires quota { quota < length self.old.accounts }
        requires few { self.old.next ≤ MOST_STEPS }
        requires fits { Placing self.old (M.granules mem.old) quota bytes gap }
        requires limit { (account self.old quota).limit < 2 ^ 32 }
        ensures laid { Laid self.new (M.granules mem.new) }
        ensures placed { Placed self.old self.new (M.granules mem.old) (M.granules mem.new) quota
            bytes gap.base result.number result.base result.length result.live }
    {
        let _size = mem.size();
        let number = self.next;
        let start = gap.base - self.range.ram;
        let offset = gap.base - CHUNK_HEAD - self.range.base;
        carve(&mut self.range, mem, &gap, bytes, number);
        mem.zero(start, start + bytes);
        name_chunk(&mut self.names, quota, offset);
        let live = charge(&mut self.accounts, quota, bytes + CHUNK_HEAD);
        self.next = number + 1;
        Object {
            number,
            base: gap.base,
            length: bytes,
            live,
        }
    }

    /// The live object of a quota with exactly these bounds is freed: it is quarantined and zeroed, its chunk
    /// marked, and its charge taken off. `NotWhole` comes exactly where there is none; then nothing changes.
    pub fn free<M: Memory>(
        &mut self,
        mem: &mut M,
        quota: u32,
        base: u32,
        top: u64,
    ) -> Result<Object, NotWhole>
        requires laid { Laid self.old (M.granules mem.old) }
        requires quota { quota < length self.old.accounts }
        ensures laid { Laid self.new (M.granules mem.new) }
        ensures answer { MatchResult result
            (λ o.
            Frees self.old self.new (M.granules mem.old) (M.granules mem.new) quota base top
            o.number o.base o.length o.live)
            (λ e. whole_of quota base top (objects_of self.old (M.granules mem.old)) ≡ None) }
        ensures refused { OnErr result
            ((self.new ≡ self.old) × (M.granules mem.new ≡ M.granules mem.old)) }
        ensures quotas { length self.new.accounts ≡ length self.old.accounts }
        ensures next { self.new.next ≡ self.old.next }
    {
        let found = match self.find(mem, base, top) {
            Some(found) => found,
            None => return Err(NotWhole),
        };
        if found.quota != quota {
            return Err(NotWhole);
        }
        Ok(self.quarantine(mem, found))
    }

    /// Quarantines an object that was found.
    fn quarantine<M: Memory>(&mut self, mem: &mut M, found: Found) -> Object
        requires laid { Laid self.old (M.granules mem.old) }
        requires found { Freeing self.old (M.granules mem.old) found.object.number
            found.object.base found.object.length found.quota }
        ensures laid { Laid self.new (M.granules mem.new) }
        ensures freed { Freed self.old self.new (M.granules mem.old) (M.granules mem.new)
            found.object.number found.object.base found.object.length found.quota result.number
            result.base result.length result.live }
    {
        let _size = mem.size();
        let object = found.object;
        let ram = self.range.ram;
        let at = object.base - CHUNK_HEAD;
        let size = object.length + CHUNK_HEAD;
        set_state(&self.range, mem, at, size, object.number, QUARANTINED);
        mem.zero(object.base - ram, object.base - ram + object.length);
        mem.mark(at - ram, at - ram + size, true);
        let live = discharge(&mut self.accounts, found.quota, size);
        self.waiting += 1;
        Object {
            number: object.number,
            base: object.base,
            length: object.length,
            live,
        }
    }

    /// Paints every quarantined object; true exactly where there is one. Its time grows with how many chunks
    /// there are.
    pub fn paint<M: Memory>(&mut self, mem: &mut M) -> bool
        requires laid { Laid self.old (M.granules mem.old) }
        ensures laid { Laid self.new (M.granules mem.new) }
        ensures answer { result ≡ has_quarantined (objects_of self.old (M.granules mem.old)) }
        ensures paints { Paints self.old (M.granules mem.old) (M.granules mem.new) }
        ensures heap { self.new ≡ self.old }
    {
        if self.waiting == 0 {
            return false;
        }
        paint(&self.range, mem);
        true
    }

    /// Lets the painted objects leave: their chunks become free, joined with the free ones that they touch,
    /// and their marks are cleared. Its time grows with how many chunks there are.
    pub fn flush<M: Memory>(&mut self, mem: &mut M)
        requires laid { Laid self.old (M.granules mem.old) }
        requires swept { NoneStale (objects_of self.old (M.granules mem.old)) (M.granules mem.old) }
        ensures laid { Laid self.new (M.granules mem.new) }
        ensures flushes { Flushes self.old self.new (M.granules mem.old) (M.granules mem.new) }
    {
        let left = unname(&self.range, mem, &mut self.names, self.waiting);
        self.waiting = left;
        join(&mut self.range, mem);
    }
}
