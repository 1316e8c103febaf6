//! The boot of an image.

ghost use Rattle.std.specs.Prelude.{◌≡◌};
ghost use Rattle.def_boot.specs.Boot.{boot_state};
ghost use Rattle.def_boot.specs.Contents.{boot_granules};
ghost use Rattle.def_image.specs.Sound.{Sound};
ghost use Rattle.def_boot.specs.Booting.{empty_granules};

use crate::filling::{put_compartments, put_libraries, put_sealed_objects};
use crate::putting::put;
use ct_image::Image;
use ct_image_parts::Parts;
use ct_mem::Memory;
use ct_switch::return_sentry;

/// RAM as these parts boot it.
fn fill<M: Memory>(parts: &Parts, mem: &mut M)
    requires sound { Sound parts.now }
    requires empty { M.granules mem.old ≡ empty_granules parts.now }
    ensures { M.granules mem.new ≡ boot_granules parts.now }
{
    put_compartments(parts, mem);
    put_libraries(parts, mem);
    put_sealed_objects(parts, mem);
    put(parts, mem, parts.trusted, return_sentry());
}

/// Boots an image: memory is RAM as the image boots it.
///
/// Condition: memory reads as zero, is unmarked, and has the size of the image's RAM.
pub fn boot<M: Memory>(image: &Image, mem: &mut M)
    requires { M.granules mem.old ≡ empty_granules image.now }
    ensures { M.granules mem.new ≡ (boot_state image.now).granules }
{
    fill(image.parts(), mem);
}
