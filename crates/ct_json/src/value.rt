//! A value of a JSON text: where it stands among the nodes, and what stands inside it.

ghost use Rattle.std.specs.Prelude.{◌≡◌, ◌-◌, [], Bool, List, length, nat_le, ℕ, map, drop, option_map, is_some, unwrap_or};
ghost use Rattle.std.specs.List.{list_all, slice_get};
ghost use Rattle.std.specs.Iterator.{YieldsFirstBy, YieldsFirstRef, item_count};
ghost use Rattle.serde_json.specs.Find.{as_str, as_array, as_object, get, get_member};
ghost use Rattle.serde_json.specs.Data.{no_members};
ghost use Rattle.def_desc.specs.Members.{list_of, names_in, natural_of};
ghost use Rattle.ct_json.specs.declared.node.Node.TheVariants.{Null};
ghost use Rattle.ct_json.specs.Rows.{row, span, value_at, value_of, put_all};
ghost use Rattle.ct_json.specs.Values.{data_of, items_left, pair_of, members_left, keys_left};

use crate::node::Node;
use crate::numbers::natural;

/// A value of a JSON text: the nodes from its own on, those after it included.
#[derive(Clone, Copy, Drop)]
pub struct Json<'t, 'a> {
    nodes: &'t [Node<'a>],
}

/// The items of a list that are still to come.
#[derive(Clone, Copy, Drop)]
pub struct Items<'t, 'a> {
    nodes: &'t [Node<'a>],
    left: usize,
}

/// The members of an object that are still to come, in the order of the text.
#[derive(Clone, Copy, Drop)]
struct Pairs<'t, 'a> {
    nodes: &'t [Node<'a>],
    left: usize,
}

/// The keys of an object that are still to come, in the order of the text.
#[derive(Clone, Copy, Drop)]
pub struct Keys<'t, 'a> {
    pairs: Pairs<'t, 'a>,
}

/// The nodes after the first `count`.
fn without<'t, 'a>(nodes: &'t [Node<'a>], count: usize) -> &'t [Node<'a>]
    ensures { result.now ≡ drop count nodes.now }
{
    &nodes[count.min(nodes.len())..]
}

/// The first node; null stands for none.
fn first_of<'a>(nodes: &[Node<'a>]) -> Node<'a>
    ensures { result ≡ unwrap_or (slice_get nodes.now 0) Null }
{
    nodes.first().copied().unwrap_or(Node::Null)
}

/// The nodes past the first value.
fn past_value<'t, 'a>(nodes: &'t [Node<'a>]) -> &'t [Node<'a>]
    ensures { result.now ≡ drop (span (map row nodes.now)) nodes.now }
{
    match nodes.split_first() {
        Some((first, rest)) => without(rest, first.inside()),
        None => nodes,
    }
}

/// How many of `left` nodes there are past the first value.
fn count_past(nodes: &[Node<'_>], left: usize) -> usize
    ensures { result ≡ left - span (map row nodes.now) }
{
    match nodes.split_first() {
        Some((first, _)) => left.saturating_sub(1).saturating_sub(first.inside()),
        None => left,
    }
}

impl<'t, 'a> Json<'t, 'a> {
    /// The value that some nodes begin with.
    pub(crate) fn of(nodes: &'t [Node<'a>]) -> Json<'t, 'a>
        ensures { data_of result ≡ value_of (map row nodes.now) }
    {
        Json { nodes }
    }

    /// The node that it begins with; null stands for none.
    #[tactic(auto, using(crate::proofs::Nodes::first_seen))]
    fn first(&self) -> Node<'a>
        ensures { data_of self.now ≡ value_at (row result) (drop 1 (map row self.now.nodes.now)) }
    {
        first_of(self.nodes)
    }

    /// The text that it is.
    pub fn as_str(&self) -> Option<&'a str>
        ensures { option_map (λ s. s.now) result ≡ as_str (data_of self.now) }
    {
        match self.first() {
            Node::Text(text) => Some(text),
            _ => None,
        }
    }

    /// The number that it is, if it is one of 0 to 2^64 - 1 that is written without point, exponent and sign.
    pub fn as_u64(&self) -> Option<u64>
        ensures { result ≡ natural_of (data_of self.now) }
    {
        match self.first() {
            Node::Number(text) => natural(text),
            _ => None,
        }
    }

    /// Whether it is an object.
    pub fn is_object(&self) -> bool
        ensures { result ≡ is_some (as_object (data_of self.now)) }
    {
        matches!(self.first(), Node::Object(_))
    }

    /// The items of the list that it is.
    pub fn items(&self) -> Option<Items<'t, 'a>>
        ensures { option_map items_left result ≡ option_map list_of (as_array (data_of self.now)) }
    {
        match self.first() {
            Node::List(left) => Some(Items {
                nodes: without(self.nodes, 1),
                left,
            }),
            _ => None,
        }
    }

    /// The members of the object that it is.
    fn pairs(&self) -> Option<Pairs<'t, 'a>>
        ensures { option_map (λ it. put_all (members_left it) no_members) result
            ≡ as_object (data_of self.now) }
    {
        match self.first() {
            Node::Object(left) => Some(Pairs {
                nodes: without(self.nodes, 1),
                left,
            }),
            _ => None,
        }
    }

    /// The keys of the object that it is: what is so of each of them is so of each name of the object. A
    /// key may come twice.
    #[tactic(auto, using(crate::proofs::Pairs::all_names))]
    pub fn keys(&self) -> Option<Keys<'t, 'a>>
        ensures { (P : List ℕ → Bool) → option_map (λ k. list_all P (keys_left k)) result
            ≡ option_map (λ ms. list_all P (names_in ms)) (as_object (data_of self.now)) }
    {
        let pairs = self.pairs()?;
        Some(Keys { pairs })
    }

    /// The value of the last member of that name, where it is an object that has one.
    pub fn get(&self, key: &str) -> Option<Json<'t, 'a>>
        ensures { option_map data_of result ≡ get key.now (data_of self.now) }
    {
        last_of(self.pairs()?, key)
    }
}

/// The value of the last member of that name.
#[tactic(auto, using(crate::proofs::Pairs::found_at, crate::proofs::Pairs::get_member_put_all))]
fn last_of<'t, 'a>(pairs: Pairs<'t, 'a>, key: &str) -> Option<Json<'t, 'a>>
    ensures { option_map data_of result
        ≡ get_member key.now (put_all (members_left pairs.entry) no_members) }
{
    let mut found = None;
    for (name, value) in pairs {
        if name == key {
            found = Some(value);
        }
    }
    found
}

impl<'t, 'a> Items<'t, 'a> {
    /// No items.
    #[tactic(auto, unfolding(crate::specs::Rows::items_of))]
    pub fn none() -> Items<'t, 'a>
        ensures { items_left result ≡ [] }
    {
        Items {
            nodes: &[],
            left: 0,
        }
    }

    /// Whether so many items are still to come, or fewer.
    pub fn are_at_most(self, most: u64) -> bool
        ensures { result ≡ nat_le (length (items_left self.entry)) most }
    {
        let mut more = most;
        for _item in self {
            if more == 0 {
                return false;
            }
            more -= 1;
        }
        true
    }
}

impl<'t, 'a> Iterator for Items<'t, 'a> {
    type Item = Json<'t, 'a>;

    ghost next_gives = { YieldsFirstBy data_of items_left };

    ghost remaining = { item_count items_left };

    #[tactic(auto, using(crate::proofs::Nodes::items_next, crate::proofs::Nodes::no_items_left))]
    fn next(&mut self) -> Option<Json<'t, 'a>> {
        if self.left == 0 || self.nodes.is_empty() {
            return None;
        }
        let item = Json { nodes: self.nodes };
        self.left = count_past(self.nodes, self.left);
        self.nodes = past_value(self.nodes);
        Some(item)
    }
}

impl<'t, 'a> Iterator for Pairs<'t, 'a> {
    type Item = (&'a str, Json<'t, 'a>);

    ghost next_gives = { YieldsFirstBy pair_of members_left };

    ghost remaining = { item_count members_left };

    #[tactic(auto, using(crate::proofs::Nodes::pairs_next, crate::proofs::Nodes::no_pairs_left, crate::proofs::Nodes::no_key_first))]
    fn next(&mut self) -> Option<(&'a str, Json<'t, 'a>)> {
        if self.left == 0 {
            return None;
        }
        let Node::Key(key) = first_of(self.nodes) else {
            return None;
        };
        let rest = without(self.nodes, 1);
        self.left = count_past(rest, self.left - 1);
        self.nodes = past_value(rest);
        Some((key, Json { nodes: rest }))
    }
}

impl<'t, 'a> Iterator for Keys<'t, 'a> {
    type Item = &'a str;

    ghost next_gives = { YieldsFirstRef keys_left };

    ghost remaining = { item_count keys_left };

    fn next(&mut self) -> Option<&'a str> {
        let (key, _) = self.pairs.next()?;
        Some(key)
    }
}
