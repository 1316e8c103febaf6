//! The places of a description, in the order in which they are judged, with what stands at each. They
//! are found one after another, and none is kept.

ghost use Rattle.std.specs.Prelude.{◌≡◌, ◌<◌, [], ◌∷◌, None, true, false, codes, length, map, option_map, option_to_list, IfOk, MatchOption};
ghost use Rattle.std.specs.Iterator.{YieldsFirstBy};
ghost use Rattle.serde_json.specs.Find.{get};
ghost use Rattle.def_desc.specs.Tables as table;
ghost use Rattle.def_desc.specs.Walk as spec;
ghost use Rattle.ct_json.specs.Values.{data_of, items_left};
ghost use Rattle.ct_desc_value.specs.Seen.{spot_view, spots_in, spots_left};

use crate::members::list_at;
use crate::owner::Owner;
use crate::tables::inner_lists;
use ct_json::{Items, Json};
use def_desc::tables::OUTER;
use def_desc::{PartWord, Place};
use std::alloc::AllocError;

/// What stands at a place, and what holds its list.
#[derive(Clone, Copy, Drop)]
pub struct Spot<'t, 'a> {
    pub place: Place,
    pub owner: Owner<'t, 'a>,
    pub value: Json<'t, 'a>,
}

/// Lists of an owner, element after element: the one that is walked, and those after it. The places of an owner's lists
/// have its index; those of the description's have index 0 here, and their number as their item.
#[derive(Clone, Copy, Drop)]
struct Lists<'t, 'a> {
    owner: Owner<'t, 'a>,
    index: u32,
    part: PartWord,
    number: u64,
    items: Items<'t, 'a>,
    lists: &'static [(PartWord, &'static str)],
}

/// A place counts in 32 bits. An error is a count of 2^32 or more.
fn counted(n: u64) -> Result<u32, AllocError>
    ensures { IfOk result (λ v. v ≡ n) }
{
    if n < 1 << 32 {
        Ok(n as u32)
    } else {
        Err(AllocError)
    }
}

impl<'t, 'a> Lists<'t, 'a> {
    fn of(
        owner: Owner<'t, 'a>,
        index: u32,
        lists: &'static [(PartWord, &'static str)],
    ) -> Lists<'t, 'a>
        ensures { spots_in result
            ≡ spec.inside (data_of owner.entry.value) index
            (map (λ r. table.inner r.0 r.1.now) lists.now) }
    {
        let items: Items<'t, 'a> = Items::none();
        Lists {
            owner,
            index,
            part: PartWord::Firmware,
            number: 0,
            items,
            lists,
        }
    }

    /// The next place of the list that is walked.
    fn step(&mut self) -> Result<Option<Spot<'t, 'a>>, AllocError>
        ensures lists { self.new.lists ≡ self.old.lists }
        ensures gives { IfOk result (λ r. MatchOption r
            ((items_left self.new.items ≡ []) × (spots_in self.new ≡ spots_in self.old))
            (λ s. spots_in self.old ≡ spot_view s ∷ spots_in self.new)) }
    {
        match self.items.next() {
            Some(value) => {
                let item = counted(self.number)?;
                self.number += 1;
                let place = Place {
                    part: self.part,
                    index: self.index,
                    item,
                };
                let owner = self.owner;
                Ok(Some(Spot {
                    place,
                    owner,
                    value,
                }))
            }
            None => Ok(None),
        }
    }

    /// Goes on to the next list, and says whether there is one.
    fn turn(&mut self) -> bool
        requires { items_left self.old.items ≡ [] }
        ensures same { spots_in self.new ≡ spots_in self.old }
        ensures shorter { result ≡ true
            → length self.new.lists.now < length self.old.lists.now }
        ensures last { result ≡ false → spots_in self.new ≡ [] }
    {
        match self.lists {
            [(part, key), rest @ ..] => {
                self.part = *part;
                self.number = 0;
                self.items = list_at(&self.owner.value, *key);
                self.lists = rest;
                true
            }
            [] => false,
        }
    }

    /// The next place of the lists. An error is want of memory, or a list of more than 2^32 elements.
    fn next(&mut self) -> Result<Option<Spot<'t, 'a>>, AllocError>
        ensures { IfOk result (λ r. YieldsFirstBy spot_view spots_in self.old r self.new) }
    {
        loop {
            let found = self.step()?;
            if found.is_some() || !self.turn() {
                return Ok(found);
            }
        }
    }
}

/// The places that are still to come: the firmware and RAM, the elements of the lists of a compartment
/// or library, and those of the lists of the description.
#[derive(Drop)]
pub struct Spots<'t, 'a> {
    firmware: Option<Spot<'t, 'a>>,
    ram: Option<Spot<'t, 'a>>,
    inner: Lists<'t, 'a>,
    outer: Lists<'t, 'a>,
}

impl<'t, 'a> Spots<'t, 'a> {
    /// The next element of a list of the description. What stands in its lists comes next.
    #[tactic(auto, unfolding(crate::specs::Seen::spots_left))]
    fn next_outside(&mut self) -> Result<Option<Spot<'t, 'a>>, AllocError>
        requires { (self.old.firmware ≡ None) × (self.old.ram ≡ None)
            × (spots_in self.old.inner ≡ []) }
        ensures { IfOk result
            (λ r. YieldsFirstBy spot_view spots_left self.old r self.new) }
    {
        match self.outer.next()? {
            Some(element) => {
                let part = element.place.part;
                let index = element.place.item;
                self.inner = Lists::of(Owner::of(element.value), index, inner_lists(part));
                Ok(Some(Spot {
                    place: Place {
                        part,
                        index,
                        item: 0,
                    },
                    owner: element.owner,
                    value: element.value,
                }))
            }
            None => Ok(None),
        }
    }

    /// The next place. An error is want of memory, or a list of more than 2^32 elements.
    #[tactic(auto, unfolding(crate::specs::Seen::spots_left))]
    pub fn next(&mut self) -> Result<Option<Spot<'t, 'a>>, AllocError>
        ensures { IfOk result
            (λ r. YieldsFirstBy spot_view spots_left self.old r self.new) }
    {
        if let Some(spot) = self.firmware {
            self.firmware = None;
            return Ok(Some(spot));
        }
        if let Some(spot) = self.ram {
            self.ram = None;
            return Ok(Some(spot));
        }
        match self.inner.next()? {
            Some(spot) => Ok(Some(spot)),
            None => self.next_outside(),
        }
    }
}

fn first_spot<'t, 'a>(owner: Owner<'t, 'a>) -> Spot<'t, 'a>
    ensures { spot_view result ≡ spec.spot (spec.place PartWord.Firmware 0 0)
        (data_of owner.entry.value) (data_of owner.entry.value) }
{
    let place = Place {
        part: PartWord::Firmware,
        index: 0,
        item: 0,
    };
    let value = owner.value;
    Spot {
        place,
        owner,
        value,
    }
}

fn ram_spot<'t, 'a>(owner: Owner<'t, 'a>) -> Option<Spot<'t, 'a>>
    ensures { option_to_list (option_map spot_view result)
        ≡ spec.ram_spots (data_of owner.entry.value)
        (get (codes "ram") (data_of owner.entry.value)) }
{
    match owner.value.get("ram") {
        Some(value) => {
            let place = Place {
                part: PartWord::Ram,
                index: 0,
                item: 0,
            };
            Some(Spot {
                place,
                owner,
                value,
            })
        }
        None => None,
    }
}

/// The places of any value.
pub fn spots_of<'t, 'a>(value: &Json<'t, 'a>) -> Spots<'t, 'a>
    ensures { spots_left result ≡ spec.spots_of (data_of value.now) }
{
    let owner = Owner::of(*value);
    let inner = Lists::of(owner, 0, &[]);
    let outer = Lists::of(owner, 0, &OUTER);
    Spots {
        firmware: Some(first_spot(owner)),
        ram: ram_spot(owner),
        inner,
        outer,
    }
}
