//! A plane of shadows.

ghost use Rattle.std.specs.Prelude.{◌≡◌, ◌<◌, ◌≤◌, length, replicate, slice_set, slice_index_or, IfOk};
ghost use Rattle.ct_planes.specs.Fills.{filled};
ghost use Rattle.def_words.specs.Capability.{nowhere};

use def_refusals::NoMemory;
use def_words::Shadow;
use std::alloc::Global;
use std::marker::Model;

/// The shadow of plain bytes.
const NONE: Shadow = Shadow { root: 0, source: 0 };

/// A shadow for each granule.
#[derive(Drop)]
pub(crate) struct Shadows {
    rows: Vec<Shadow>,
}

impl Model for Shadows {
    ghost use Rattle.std.specs.Prelude.{List};
    ghost use Rattle.def_words.specs.declared.Shadow.{Shadow};

    ghost Value = { List Shadow };

    ghost view = { λ s. s.rows.items };
}

/// Takes the shadows from the granules from one number to another.
fn clear_in(rows: &mut [Shadow], from: usize, to: usize)
    requires order { from ≤ to }
    requires inside { to ≤ length rows.old }
    ensures { rows.new ≡ filled from to nowhere rows.old }
{
    rows[from..to].fill(NONE);
}

impl Shadows {
    /// So many shadows, each of plain bytes.
    pub(crate) fn new(alloc: Global, count: usize) -> Result<Shadows, NoMemory>
        ensures { IfOk result (λ shadows. shadows ≡ replicate count nowhere) }
    {
        let rows = vec![in alloc; NONE; count]?;
        Ok(Shadows { rows })
    }

    /// The shadow of a granule.
    pub(crate) fn get(&self, i: usize) -> Shadow
        requires { i < length self.now }
        ensures { result ≡ slice_index_or self.now i nowhere }
    {
        self.rows[i]
    }

    /// Writes the shadow of a granule.
    pub(crate) fn put(&mut self, i: usize, shadow: Shadow)
        requires { i < length self.old }
        ensures { self.new ≡ slice_set self.old i shadow }
    {
        self.rows[i] = shadow;
    }

    /// Takes the shadow from a granule.
    pub(crate) fn clear(&mut self, i: usize)
        requires { i < length self.old }
        ensures { self.new ≡ slice_set self.old i nowhere }
    {
        self.rows[i] = NONE;
    }

    /// Takes the shadows from the granules from one number to another.
    pub(crate) fn zero(&mut self, from: usize, to: usize)
        requires order { from ≤ to }
        requires inside { to ≤ length self.old }
        ensures { self.new ≡ filled from to nowhere self.old }
    {
        clear_in(&mut self.rows, from, to);
    }
}
