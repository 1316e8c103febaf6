//! From a text to its nodes, in one pass over its tokens.

ghost use Rattle.std.specs.Prelude.{◌≡◌, ◌<◌, ◌++◌, ◌∷◌, [], ℕ, List, Err, IfErr, IsSome, MatchResult, None, OnOk, Some, false, length, map};
ghost use Rattle.json.specs.Reads.{opens, token_of};
ghost use Rattle.json.specs.Token.{Token as SpecToken, begin_array, begin_object};
ghost use Rattle.serde_json.specs.Read.{number_of, read as read_text};
ghost use Rattle.ct_json.specs.Rows.{number, row};
ghost use Rattle.ct_json.specs.Standing.{Adds, AreItems, AreMembers, AreValue, items_read, members_read, value_read};
ghost use Rattle.ct_json.specs.Values.{data_of, document_data};

use crate::node::Node;
use crate::numbers::is_in_range;
use crate::unread::Unread;
use crate::value::Json;
use json::{Reader, Scratch, Token};
use std::alloc::Global;

const MAX_DEPTH: usize = 127;

/// A text that is JSON: what it says, as nodes.
#[derive(Drop)]
pub struct Document<'a> {
    nodes: Vec<Node<'a>>,
}

impl<'a> Document<'a> {
    /// Reads a text. `Ok` comes of JSON alone, `Invalid` of what isn't alone, and `NoMemory` may come of
    /// any text.
    pub fn read(
        alloc: Global,
        text: &'a str,
        scratch: &'a mut Scratch,
    ) -> Result<Document<'a>, Unread>
        ensures { MatchResult result
            (λ d. read_text text.now ≡ Some (document_data d))
            (λ e. e ≡ Unread.Invalid → read_text text.now ≡ None) }
    {
        // A node takes two bytes of text at least, but for the last and for each list and object that is
        // still open.
        let mut nodes = Vec::with_capacity(alloc, text.len() / 2 + MAX_DEPTH / 2 + 1)?;
        let mut reader = Reader::new(text, scratch)?;
        read_value(&mut nodes, &mut reader, MAX_DEPTH)?;
        if reader.next().is_some() {
            return Err(Unread::Invalid);
        }
        Ok(Document { nodes })
    }

    /// The value that the text is.
    pub fn root(&self) -> Json<'_, 'a>
        ensures { data_of result ≡ document_data self.now }
    {
        Json::of(&self.nodes)
    }
}

/// A node more, the last.
fn push<'a>(nodes: &mut Vec<Node<'a>>, node: Node<'a>) -> Result<(), Unread>
    ensures ok { OnOk result
        (map row nodes.new.items ≡ map row nodes.old.items ++ row node.entry ∷ []) }
    ensures err { IfErr result (λ e. e ≡ Unread.NoMemory) }
{
    nodes.push(node)?;
    Ok(())
}

/// The value that the token is, where it opens no list and no object.
fn read_scalar<'a>(nodes: &mut Vec<Node<'a>>, token: Token<'a>) -> Result<(), Unread>
    ensures ok { OnOk result ((depth : ℕ) (rest : List SpecToken)
        → Adds AreValue (value_read depth (token_of token.entry ∷ rest))
        (map row nodes.old.items) (map row nodes.new.items) rest) }
    ensures err { result ≡ Err Unread.Invalid → opens (token_of token.entry ∷ []) ≡ false
        → (depth : ℕ) (rest : List SpecToken)
        → value_read depth (token_of token.entry ∷ rest) ≡ None }
{
    match token {
        Token::Null => push(nodes, Node::Null),
        Token::Bool(b) => push(nodes, Node::Bool(b)),
        Token::String(text) => push(nodes, Node::Text(text)),
        Token::Number(text) => read_number(nodes, text),
        _ => Err(Unread::Invalid),
    }
}

fn read_number<'a>(nodes: &mut Vec<Node<'a>>, text: &'a str) -> Result<(), Unread>
    ensures ok { OnOk result (IsSome (number_of text.now)
        × (map row nodes.new.items ≡ map row nodes.old.items ++ number text.now ∷ [])) }
    ensures err { result ≡ Err Unread.Invalid → number_of text.now ≡ None }
{
    if !is_in_range(text) {
        return Err(Unread::Invalid);
    }
    push(nodes, Node::Number(text))
}

#[cycle(read)]
fn read_value<'a>(
    nodes: &mut Vec<Node<'a>>,
    reader: &mut Reader<'a>,
    depth: usize,
) -> Result<(), Unread>
    ensures ok { OnOk result (Adds AreValue (value_read depth reader.old)
        (map row nodes.old.items) (map row nodes.new.items) reader.new) }
    ensures shorter { OnOk result (length reader.new < length reader.old) }
    ensures err { result ≡ Err Unread.Invalid → value_read depth reader.old ≡ None }
{
    match reader.next() {
        None => Err(Unread::Invalid),
        Some(Token::BeginArray) => read_list(nodes, reader, depth),
        Some(Token::BeginObject) => read_object(nodes, reader, depth),
        Some(token) => read_scalar(nodes, token),
    }
}

/// What follows the bracket that opens a list.
#[cycle(read)]
fn read_list<'a>(
    nodes: &mut Vec<Node<'a>>,
    reader: &mut Reader<'a>,
    depth: usize,
) -> Result<(), Unread>
    ensures ok { OnOk result (Adds AreValue (value_read depth (begin_array ∷ reader.old))
        (map row nodes.old.items) (map row nodes.new.items) reader.new) }
    ensures shorter { OnOk result (length reader.new < length reader.old) }
    ensures err { result ≡ Err Unread.Invalid
        → value_read depth (begin_array ∷ reader.old) ≡ None }
{
    if depth == 0 {
        return Err(Unread::Invalid);
    }
    let place = nodes.len();
    push(nodes, Node::List(0))?;
    read_items(nodes, reader, depth - 1)?;
    nodes[place] = Node::List(nodes.len() - place - 1);
    Ok(())
}

/// What follows the brace that opens an object.
#[cycle(read)]
fn read_object<'a>(
    nodes: &mut Vec<Node<'a>>,
    reader: &mut Reader<'a>,
    depth: usize,
) -> Result<(), Unread>
    ensures ok { OnOk result (Adds AreValue (value_read depth (begin_object ∷ reader.old))
        (map row nodes.old.items) (map row nodes.new.items) reader.new) }
    ensures shorter { OnOk result (length reader.new < length reader.old) }
    ensures err { result ≡ Err Unread.Invalid
        → value_read depth (begin_object ∷ reader.old) ≡ None }
{
    if depth == 0 {
        return Err(Unread::Invalid);
    }
    let place = nodes.len();
    push(nodes, Node::Object(0))?;
    read_members(nodes, reader, depth - 1)?;
    nodes[place] = Node::Object(nodes.len() - place - 1);
    Ok(())
}

#[cycle(read)]
fn read_items<'a>(
    nodes: &mut Vec<Node<'a>>,
    reader: &mut Reader<'a>,
    depth: usize,
) -> Result<(), Unread>
    ensures ok { OnOk result (Adds AreItems (items_read depth reader.old)
        (map row nodes.old.items) (map row nodes.new.items) reader.new) }
    ensures shorter { OnOk result (length reader.new < length reader.old) }
    ensures err { result ≡ Err Unread.Invalid → items_read depth reader.old ≡ None }
{
    'items: while !reader.take_end_array() {
        read_value(nodes, reader, depth)?;
    }
    Ok(())
}

#[cycle(read)]
fn read_members<'a>(
    nodes: &mut Vec<Node<'a>>,
    reader: &mut Reader<'a>,
    depth: usize,
) -> Result<(), Unread>
    ensures ok { OnOk result (Adds AreMembers (members_read depth reader.old)
        (map row nodes.old.items) (map row nodes.new.items) reader.new) }
    ensures shorter { OnOk result (length reader.new < length reader.old) }
    ensures err { result ≡ Err Unread.Invalid → members_read depth reader.old ≡ None }
{
    'members: while let Some(name) = reader.next_key()? {
        push(nodes, Node::Key(name))?;
        read_value(nodes, reader, depth)?;
    }
    Ok(())
}
