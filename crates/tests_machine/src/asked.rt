//! What calls and their ends ask, as a test: the rows hold a thread and memory of which no clause tells it.

ghost use Rattle.std.specs.Prelude.{◌≡◌, ◌*◌, ◌+◌, ◌-◌, ◌^◌, ◌≤◌, ◌<◌, ℕ, Bool, true, false, length, slice_index_or};
ghost use Rattle.ct_areas.specs.Threads.{HasArea};
ghost use Rattle.def_profile.specs.declared.seals.TheConstants.{EXPORT_TYPE};
ghost use Rattle.def_words.specs.Seals.{cap_seal};
ghost use Rattle.def_memory.specs.Granules.{plain};
ghost use Rattle.def_reach.specs.Roots.{root_of};
ghost use Rattle.ct_switch.specs.Exports.{AreSorted, AreTogether, HeadLies, IsCallable, no_row, is_export_of};
ghost use Rattle.ct_switch.specs.Ready.{HasStack, IsReady, MayCall};

use ct_areas::{Area, Thread};
use ct_cap::Live;
use ct_entry::{Entries, Entry, Gate};
use ct_mem::Memory;
use ct_switch::{called, export_of, is_export_of, table_at};
use def_profile::layout::{AREA_HEAD, FRAME_SIZE, TABLE_HEAD};
use def_profile::seals::EXPORT_TYPE;

/// Whether an area lies in RAM of so many bytes, and is its head and at least one frame.
fn has_area(a: &Area, size: u64) -> bool
    requires { size < 2 ^ 32 }
    ensures { result ≡ true → HasArea size a.now }
{
    if a.ram % 16 != 0 || a.trusted % 16 != 0 || a.trusted < a.ram {
        return false;
    }
    if a.ram as u64 + size < a.trusted as u64 + a.trusted_length as u64 {
        return false;
    }
    if a.trusted_length < AREA_HEAD + FRAME_SIZE {
        return false;
    }
    (a.trusted_length - AREA_HEAD) % FRAME_SIZE == 0
}

/// Whether a stack lies in RAM of so many bytes, in multiples of 16, and doesn't meet the area.
fn has_stack(a: &Area, size: u64) -> bool
    requires { size < 2 ^ 32 }
    ensures { result ≡ true → HasStack size a.now }
{
    if a.stack % 16 != 0 || a.stack_length % 16 != 0 || a.stack < a.ram {
        return false;
    }
    let end = a.stack as u64 + a.stack_length as u64;
    if a.ram as u64 + size < end {
        return false;
    }
    if end <= a.trusted as u64 {
        return true;
    }
    a.trusted as u64 + a.trusted_length as u64 <= a.stack as u64
}

/// Whether a return and an unwind may be made.
pub fn is_ready<M: Memory>(t: &Thread, mem: &M) -> bool
    ensures { result ≡ true → IsReady (M.granules mem.now) t.now }
{
    let size = mem.size() as u64;
    if !has_area(&t.area, size) || !has_stack(&t.area, size) {
        return false;
    }
    if t.depth == 0 || t.area.trusted_length.saturating_sub(AREA_HEAD) / FRAME_SIZE < t.depth {
        return false;
    }
    if t.top < t.area.stack || t.area.stack as u64 + (t.area.stack_length as u64) < t.top as u64 {
        return false;
    }
    t.top % 16 == 0
}

/// Whether gates stand by their numbers.
fn are_sorted(gates: &[Gate]) -> bool
    ensures { result ≡ true → AreSorted gates.now }
{
    for i in 1..gates.len() {
        if gates[i].entry < gates[i - 1].entry {
            return false;
        }
    }
    true
}

/// Before which index no row is an export of a compartment.
fn first_export(rows: &[Entry], home: u32) -> usize
    ensures { (k : ℕ) → k < result
        → is_export_of home (slice_index_or rows.now k no_row) ≡ false }
{
    for i in 0..rows.len() {
        if is_export_of(home, rows[i]) {
            return i;
        }
    }
    rows.len()
}

/// From which index on no row is an export of a compartment.
fn last_export(rows: &[Entry], home: u32) -> usize
    ensures none { (k : ℕ) → result ≤ k
        → is_export_of home (slice_index_or rows.now k no_row) ≡ false }
    ensures inside { result ≤ length rows.now }
{
    let mut end = rows.len();
    while end > 0 {
        if is_export_of(home, rows[end - 1]) {
            return end;
        }
        end -= 1;
    }
    0
}

/// Whether the exports of a compartment stand together.
fn are_together(rows: &[Entry], home: u32) -> bool
    ensures { result ≡ true → AreTogether rows.now home }
{
    let low = first_export(rows, home);
    let high = last_export(rows, home);
    for i in low..high {
        if !is_export_of(home, rows[i]) {
            return false;
        }
    }
    true
}

/// Whether the head of an export table lies in RAM of so many bytes.
fn head_lies(ram: u32, size: u64, table: u32) -> bool
    requires { size < 2 ^ 32 }
    ensures { result ≡ true → HeadLies ram size table }
{
    if table < ram || table % 8 != ram % 8 {
        return false;
    }
    table as u64 + TABLE_HEAD as u64 <= ram as u64 + size
}

/// Whether a number is that of an export that can be called, in RAM of so many bytes.
fn is_callable(e: &Entries, ram: u32, size: u64, number: u32) -> bool
    requires sorted { AreSorted e.now.gates }
    requires small { size < 2 ^ 32 }
    ensures { result ≡ true → IsCallable e.now ram size number }
{
    let home = export_of(e, number).callee;
    let index = (number as usize).saturating_sub(1);
    let rows = e.rows.as_slice();
    if number == 0 || rows.len() <= index {
        return false;
    }
    let exported = is_export_of(home, rows[index]);
    let together = are_together(rows, home);
    if exported && together {
        let table = table_at(rows, home, index);
        return head_lies(ram, size, table);
    }
    false
}

/// Whether an import, where it is a tagged capability of an export's type, names an export that
/// can be called.
fn names_callable(e: &Entries, ram: u32, size: u64, import: Live) -> bool
    requires sorted { AreSorted e.now.gates }
    requires small { size < 2 ^ 32 }
    ensures { result ≡ true → import.tag ≡ true → cap_seal import ≡ EXPORT_TYPE
        → IsCallable e.now ram size (root_of e.now import.shadow.root).of }
{
    if !import.cap.tag || import.seal != EXPORT_TYPE {
        return true;
    }
    let number = called(e, import.cap.shadow.root);
    is_callable(e, ram, size, number)
}

/// Register c6.
fn import_of(regs: &[Live; 16]) -> Live
    ensures { result ≡ slice_index_or regs.now 6 (plain 0) }
{
    regs[6]
}

/// Whether a call may be made.
pub fn may_call<M: Memory>(t: &Thread, mem: &M, e: &Entries) -> bool
    ensures { result ≡ true → MayCall (M.granules mem.now) t.now e.now }
{
    let ready = is_ready(t, mem);
    let sorted = are_sorted(e.gates.as_slice());
    if ready && sorted {
        let import = import_of(&t.regs);
        let size = mem.size() as u64;
        return names_callable(e, t.area.ram, size, import);
    }
    false
}
