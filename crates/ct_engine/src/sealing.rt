//! Keys and tokens.
#![tactic(auto, using(crate::proofs::Tables::tokens_seen))]

ghost use Rattle.std.specs.Prelude.{◌≡◌, ◌≤◌, ◌<◌, ◌&&◌, length};
ghost use Rattle.std.specs.List.{list_any};
ghost use Rattle.def_profile.specs.declared.limits.TheConstants.{MOST_STEPS};
ghost use Rattle.def_machine.specs.Rows.{RowsFit};
ghost use Rattle.def_step.specs.Tokens.{is_key_row, is_row_of, row_among};
ghost use Rattle.ct_heap.specs.Lookups.{found_as, whole_at};
ghost use Rattle.ct_token.specs.Table.{row_for};
ghost use Rattle.ct_engine.specs.Grants.{AllocatesAsWritten};

use crate::engine::Engine;
use ct_heap::{Found, HeapRefusal, Object};
use ct_mem::Memory;

impl<M: Memory + Drop> Engine<M> {
    /// The live object with exactly these bounds, which are addresses, and its quota; `None` comes exactly where there
    /// is none.
    pub fn find(&self, base: u32, top: u64) -> Option<Found>
        ensures { result
            ≡ found_as self.now.state.objects (whole_at base top self.now.state.objects) }
    {
        self.rows.heap.find(&self.mem, base, top)
    }

    /// Whether a number is a key's.
    pub fn is_key(&self, number: u32) -> bool
        ensures { result ≡ list_any (is_key_row number) self.now.state.tokens }
    {
        self.rows.tokens.is_key(number)
    }

    /// Whether a key opens a token: the one has a key's row, and the row of the other names it.
    pub fn opens(&self, key: u32, token: u32) -> bool
        ensures { result
            ≡ (list_any (is_key_row key) self.now.state.tokens
            && list_any (is_row_of key token) self.now.state.tokens) }
    {
        self.rows.tokens.opens(key, token)
    }

    /// An object as `allocate` makes it, with a row: a key's where no key is named, else that of a token of this key.
    ///
    /// The refusals are those of `allocate`, and change nothing. Condition: each row is of a live object, and no two
    /// are of one.
    pub fn allocate_sealed(
        &mut self,
        quota: u32,
        size: u32,
        key: Option<u32>,
    ) -> Result<Object, HeapRefusal>
        requires quota { quota < length self.old.limits }
        requires few { self.old.state.next ≤ MOST_STEPS }
        requires rows { RowsFit self.old.state.objects self.old.state.tokens }
        ensures { AllocatesAsWritten self.old self.new quota size
            (row_among (row_for self.old.state.next key) self.old.state.tokens) result }
    {
        let object = self.allocate(quota, size)?;
        self.rows.tokens.add(object.number, key);
        Ok(object)
    }
}
