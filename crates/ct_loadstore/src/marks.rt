//! The load filter.

ghost use Rattle.std.specs.Prelude.{◌≡◌};
ghost use Rattle.def_machine.specs.Memory.{filtered_in, is_marked_in};

use ct_cap::{Live, untag};
use ct_mem::Memory;

/// Whether an address lies in a marked granule; RAM begins at `ram`.
#[inline(always)]
fn is_marked<M: Memory>(mem: &M, ram: u32, address: u64) -> bool
    ensures { result ≡ is_marked_in ram (M.granules mem.now) address }
{
    let size = mem.size();
    if address < ram as u64 {
        return false;
    }
    let at = address - ram as u64;
    if at >= size as u64 {
        return false;
    }
    mem.marked(at as u32)
}

/// The load filter on a capability where it stands: it loses its tag where its base lies in a marked granule. RAM
/// begins at `ram`.
#[inline(always)]
pub fn filter_in_place<M: Memory>(c: &mut Live, mem: &M, ram: u32)
    ensures { c.new ≡ filtered_in ram (M.granules mem.now) c.old }
{
    if c.cap.tag && is_marked(mem, ram, c.bounds.base) {
        untag(c);
    }
}

/// The capability, without its tag where its base lies in a marked granule; RAM begins at `ram`.
pub fn filter<M: Memory>(mem: &M, ram: u32, c: Live) -> Live
    ensures { result ≡ filtered_in ram (M.granules mem.now) c }
{
    let mut filtered = c;
    filter_in_place(&mut filtered, mem, ram);
    filtered
}
