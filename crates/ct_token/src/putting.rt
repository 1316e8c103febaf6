//! A row more, and the rows that have gone let out.

ghost use Rattle.std.specs.Prelude.{◌≡◌, ◌<◌, ◌≤◌, false, length, max};
ghost use Rattle.std.specs.Vec.{vec_capacity, vec_len};
ghost use Rattle.def_step.specs.Tokens.{row_among};
ghost use Rattle.ct_token.specs.Table.{has_row, row_for};
ghost use Rattle.ct_token.specs.Kept.{Rise, is_kept, standing_for, tokens_in};

use crate::finding::find;
use crate::rows::{Row, Standing};

/// A key's standing where no key is named, else that of a token of this key.
fn standing_for(key: Option<u32>) -> Standing
    ensures { result ≡ standing_for key }
{
    match key {
        Some(key) => Standing::TokenOf { key },
        None => Standing::Key,
    }
}

/// Whether a row hasn't gone.
fn is_kept(row: &Row) -> bool
    ensures { result ≡ is_kept row.now }
{
    match row.standing {
        Standing::Gone => false,
        Standing::Key | Standing::TokenOf { .. } => true,
    }
}

/// Where more rows are kept than so many, those that have gone are let out.
pub(crate) fn trim(rows: &mut Vec<Row>, most: usize)
    requires rise { Rise rows.old.items }
    ensures rise { Rise rows.new.items }
    ensures tokens { tokens_in rows.new.items ≡ tokens_in rows.old.items }
    ensures few { vec_len rows.new ≤ max most (length (tokens_in rows.old.items)) }
    ensures capacity { vec_capacity rows.new ≡ vec_capacity rows.old }
{
    if rows.len() > most {
        rows.retain(|row| is_kept(row));
    }
}

/// A row of a number that has none.
pub(crate) fn put(rows: &mut Vec<Row>, number: u32, key: Option<u32>)
    requires rise { Rise rows.old.items }
    requires absent { has_row number (tokens_in rows.old.items) ≡ false }
    requires room { vec_len rows.old < vec_capacity rows.old }
    ensures rise { Rise rows.new.items }
    ensures tokens { tokens_in rows.new.items
        ≡ row_among (row_for number key) (tokens_in rows.old.items) }
    ensures capacity { vec_capacity rows.old ≤ vec_capacity rows.new }
{
    let row = Row {
        number,
        standing: standing_for(key),
    };
    match find(rows, number) {
        Ok(at) => rows[at] = row,
        Err(at) => match rows.insert(at, row) {
            Ok(()) => {}
            Err(_) => {}
        },
    }
}
