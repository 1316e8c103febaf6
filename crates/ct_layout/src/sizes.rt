//! What is placed, and where.

use def_layout::Region;
use std::marker::Model;

/// RAM's base and size in bytes, and the sizes of the regions in their order, not yet rounded.
#[derive(Drop)]
pub struct Sizes {
    pub base: u32,
    pub size: u32,
    pub regions: Vec<u32>,
}

impl Model for Sizes {
    ghost use Rattle.ct_layout.specs.Rows.{SizesRow};

    ghost Value = { SizesRow };

    ghost view = { λ s. record { base = s.base; size = s.size; regions = s.regions.items } };
}

/// The regions with their rounded lengths, in the order of their sizes, and the heap.
#[derive(Drop)]
pub struct Places {
    pub regions: Vec<Region>,
    pub heap: Region,
}

impl Model for Places {
    ghost use Rattle.ct_layout.specs.Rows.{PlacesRow};

    ghost Value = { PlacesRow };

    ghost view = { λ p. record { regions = p.regions.items; heap = p.heap } };
}
