//! What of a sound image's RAM no entry reaches.

ghost use Rattle.def_boot.specs.Boot.{image_of};
ghost use Rattle.def_hidden.specs.Hidden.{Shut};
ghost use Rattle.def_image.specs.Parts.{PartsRow};
ghost use Rattle.def_image.specs.Sound.{Sound};

/// No entry of a sound image through which anything is loaded, stored or fetched reaches the
/// threads' areas or the heap.
pub fn images_shut()
    ensures { (p : PartsRow) → Sound p → Shut (image_of p) }
{}
