//! Where a row is kept, and what it says.

ghost use Rattle.std.specs.Prelude.{◌≡◌, IfErr, IfOk};
ghost use Rattle.ct_token.specs.Kept.{IsAt, IsGapFor, Rise, is_key, is_token_of, standing_in};

use crate::rows::{Row, Standing};

/// Where the row of a number is kept, or where it would be.
pub(crate) fn find(rows: &[Row], number: u32) -> Result<usize, usize>
    requires { Rise rows.now }
    ensures found { IfOk result (IsAt rows.now number) }
    ensures absent { IfErr result (IsGapFor rows.now number) }
{
    rows.binary_search_by_key(&number, |row| row.number)
}

/// What a number stands for.
pub(crate) fn look_up(rows: &[Row], number: u32) -> Standing
    requires { Rise rows.now }
    ensures { result ≡ standing_in rows.now number }
{
    match find(rows, number) {
        Ok(at) => rows[at].standing,
        Err(_) => Standing::Gone,
    }
}

/// Whether it is a key.
pub(crate) fn is_key(standing: Standing) -> bool
    ensures { result ≡ is_key standing }
{
    match standing {
        Standing::Key => true,
        Standing::Gone | Standing::TokenOf { .. } => false,
    }
}

/// Whether it is a token of this key.
pub(crate) fn is_token_of(standing: Standing, key: u32) -> bool
    ensures { result ≡ is_token_of standing key }
{
    match standing {
        Standing::TokenOf { key: other } => other == key,
        Standing::Gone | Standing::Key => false,
    }
}
