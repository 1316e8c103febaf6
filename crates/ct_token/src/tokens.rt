//! The table of keys and tokens.

ghost use Rattle.std.specs.Prelude.{◌≡◌, ◌/◌, ◌<◌, ◌&&◌, [], IfOk, None, Some, false, length};
ghost use Rattle.std.specs.List.{list_any};
ghost use Rattle.def_chunks.specs.declared.heads.TheConstants.{SLOT};
ghost use Rattle.def_step.specs.Quotas.{without_row};
ghost use Rattle.def_step.specs.Tokens.{is_key_row, is_row_of, row_among};
ghost use Rattle.ct_token.specs.Table.{has_row, row_for};

use crate::finding::{find, is_key, is_token_of, look_up};
use crate::putting::{put, trim};
use crate::rows::{Row, Standing};
use def_chunks::heads::SLOT;
use def_refusals::NoMemory;
use std::alloc::Global;
use std::marker::Model;

/// Which objects of a heap are keys and which are tokens, and of which key, by the numbers of objects.
/// It is seen as its rows in the order of their numbers, and how many there may be.
///
/// A row that goes is only marked so. Where more than twice as many are kept as there may be, those that
/// have gone are let out before one more comes.
#[derive(Drop)]
pub struct Tokens {
    rows: Vec<Row>,
    room: usize,
}

impl Model for Tokens {
    ghost use Rattle.std.specs.Prelude.{◌≤◌, ◌+◌, ◌*◌};
    ghost use Rattle.std.specs.Vec.{vec_capacity};
    ghost use Rattle.ct_token.specs.Table.{Table};
    ghost use Rattle.ct_token.specs.Kept.{Rise, tokens_in};

    ghost Value = { Table };

    ghost view = { λ t. record { rows = tokens_in t.rows.items; room = t.room } };

    ghost invariant = { λ t. Rise t.rows.items × (2 * t.room + 1 ≤ vec_capacity t.rows) };
}

impl Tokens {
    /// No row, and room for as many as a heap of so many bytes has objects. The one error is
    /// `NoMemory`: no other call takes memory.
    pub fn new(alloc: Global, length: u32) -> Result<Tokens, NoMemory>
        ensures rows { IfOk result (λ t. t.rows ≡ []) }
        ensures room { IfOk result (λ t. t.room ≡ length / SLOT) }
    {
        let room = (length / SLOT) as usize;
        let rows = Vec::with_capacity(alloc, 2 * room + 1)?;
        Ok(Tokens { rows, room })
    }

    /// Whether a number is a key's.
    pub fn is_key(&self, number: u32) -> bool
        ensures { result ≡ list_any (is_key_row number) self.now.rows }
    {
        is_key(look_up(&self.rows, number))
    }

    /// Whether a key opens a token: the one has a key's row, and the row of the other names it.
    pub fn opens(&self, key: u32, token: u32) -> bool
        ensures { result
            ≡ (list_any (is_key_row key) self.now.rows
            && list_any (is_row_of key token) self.now.rows) }
    {
        self.is_key(key) && is_token_of(look_up(&self.rows, token), key)
    }

    /// The row of a number goes, where there is one.
    pub fn drop_row(&mut self, number: u32)
        ensures rows { self.new.rows ≡ without_row number self.old.rows }
        ensures room { self.new.room ≡ self.old.room }
    {
        if let Ok(at) = find(&self.rows, number) {
            self.rows[at] = Row {
                number,
                standing: Standing::Gone,
            };
        }
    }

    /// A key's row more. Condition: the number has none, and there is room for one.
    pub fn add_key(&mut self, number: u32)
        requires absent { has_row number self.old.rows ≡ false }
        requires room { length self.old.rows < self.old.room }
        ensures rows { self.new.rows ≡ row_among (row_for number None) self.old.rows }
        ensures room { self.new.room ≡ self.old.room }
    {
        self.add(number, None);
    }

    /// A token's row more, which names its key. Condition: the number has none, and there is room for one.
    pub fn add_token(&mut self, number: u32, key: u32)
        requires absent { has_row number self.old.rows ≡ false }
        requires room { length self.old.rows < self.old.room }
        ensures rows { self.new.rows ≡ row_among (row_for number (Some key)) self.old.rows }
        ensures room { self.new.room ≡ self.old.room }
    {
        self.add(number, Some(key));
    }

    /// A row more: a key's where no key is named, else that of a token of this key. Condition: the number has none,
    /// and there is room for one.
    pub fn add(&mut self, number: u32, key: Option<u32>)
        requires absent { has_row number self.old.rows ≡ false }
        requires room { length self.old.rows < self.old.room }
        ensures rows { self.new.rows ≡ row_among (row_for number key) self.old.rows }
        ensures room { self.new.room ≡ self.old.room }
    {
        trim(&mut self.rows, 2 * self.room);
        put(&mut self.rows, number, key);
    }
}
