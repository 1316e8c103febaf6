//! The nodes of a JSON text, in the order of the text.

ghost use Rattle.std.specs.Prelude.{◌≡◌};
ghost use Rattle.ct_json.specs.Rows.{row, inside};

/// A node: a value, or the key before a member's value. What stands inside a list or an object
/// follows it, and it says how many nodes that are.
#[derive(Clone, Copy, Drop)]
pub enum Node<'a> {
    Null,
    Bool(bool),
    /// A number, as the text spells it.
    Number(&'a str),
    Text(&'a str),
    List(usize),
    Object(usize),
    Key(&'a str),
}

impl<'a> Node<'a> {
    /// How many nodes stand inside it.
    pub(crate) fn inside(&self) -> usize
        ensures { result ≡ inside (row self.now) }
    {
        match self {
            Node::List(count) => *count,
            Node::Object(count) => *count,
            _ => 0,
        }
    }
}
