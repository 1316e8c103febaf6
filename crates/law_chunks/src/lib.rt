//! Laws of a heap's chunks in memory, over their definitions alone: what meets no head keeps all that the heap
//! stands for, no head lies in a live object, and objects stand apart. Lemmas of chunks stand in proofs/ and are
//! cited from there.
#![tactic(auto)]

ghost use Rattle.std.specs.Prelude.{◌≡◌, ◌≤◌, ◌+◌, ◌*◌, ℕ, Bool, true, false, List, length};
ghost use Rattle.def_words.specs.declared.Cap.{Cap};
ghost use Rattle.def_memory.specs.declared.Granule.{Granule};
ghost use Rattle.def_memory.specs.Accesses.{IsAccess, IsPlace, stored, stored_cap};
ghost use Rattle.def_memory.specs.Ranges.{IsZeroed, IsMarked};
ghost use Rattle.def_machine.specs.Image.{Image};
ghost use Rattle.def_machine.specs.Objects.{Each};
ghost use Rattle.def_hidden.specs.Hidden.{is_live_at, is_hidden_at};
ghost use Rattle.def_chunks.specs.declared.heads.TheConstants.{SLOT};
ghost use Rattle.def_chunks.specs.Heaps.{HeapRow, objects_of, Laid, IsHeapOf};
ghost use Rattle.def_chunks.specs.Kept.{IsHead, MissesHeads, KeepsHeap, KeepsUntagged, StandsIn, InOrder};

/// A store of bytes, a store of a capability and a clearing that meet no head keep the heap laid and its
/// objects as they were, and so does every marking, and every change that leaves what is untagged as it
/// was, as a sweep does.
pub fn writes_keep()
    ensures stores { (h : HeapRow) (gs : List Granule) (at width value : ℕ) → Laid h gs
        → IsAccess (8 * length gs) at width → MissesHeads h.range gs at (at + width)
        → KeepsHeap h gs (stored gs at width value) }
    ensures capabilities { (h : HeapRow) (gs : List Granule) (at : ℕ) (c : Cap) → Laid h gs
        → IsPlace (8 * length gs) at → MissesHeads h.range gs at (at + 8)
        → KeepsHeap h gs (stored_cap gs at c) }
    ensures clears { (h : HeapRow) (gs hs : List Granule) (from to : ℕ) → Laid h gs
        → IsZeroed from to gs hs → MissesHeads h.range gs from to → KeepsHeap h gs hs }
    ensures marks { (h : HeapRow) (gs hs : List Granule) (from to : ℕ) (on : Bool) → Laid h gs
        → IsMarked from to on gs hs → KeepsHeap h gs hs }
    ensures untags { (h : HeapRow) (gs hs : List Granule) → Laid h gs → KeepsUntagged gs hs
        → KeepsHeap h gs hs }
{}

/// No head lies in a live object: each is hidden from firmware.
pub fn heads_hidden()
    ensures objects { (h : HeapRow) (gs : List Granule) (p : ℕ) → Laid h gs → IsHead h.range gs p
        → is_live_at (objects_of h gs) p ≡ false }
    ensures hidden { (i : Image) (h : HeapRow) (gs : List Granule) (p : ℕ) → IsHeapOf i h.range
        → Laid h gs
        → IsHead h.range gs p → is_hidden_at i (objects_of h gs) p ≡ true }
{}

/// Objects stand at whole granules of the heap, each behind a head, and no two of their chunks meet; so no more stand
/// there than its bytes have slots.
pub fn objects_stand()
    ensures inside { (h : HeapRow) (gs : List Granule) → Laid h gs
        → Each (λ o. StandsIn h.range o) (objects_of h gs) }
    ensures apart { (h : HeapRow) (gs : List Granule) → Laid h gs → InOrder (objects_of h gs) }
    ensures few { (h : HeapRow) (gs : List Granule) → Laid h gs
        → SLOT * length (objects_of h gs) ≤ h.range.length }
{}
