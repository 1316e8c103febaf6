//! Rows as they are kept: by number, also after they have gone.

/// What an object with a number is to the table.
#[derive(Clone, Copy, Drop)]
pub(crate) enum Standing {
    /// Neither a key nor a token: its row has gone.
    Gone,
    /// A key.
    Key,
    /// A token of the key with this number.
    TokenOf { key: u32 },
}

/// A number, and what its object is.
#[derive(Clone, Copy, Drop)]
pub(crate) struct Row {
    pub(crate) number: u32,
    pub(crate) standing: Standing,
}
