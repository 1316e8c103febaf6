//! Laws of images: an image has one spelling and a spelling one image; bytes have one answer, an
//! image or one fault at one place; and what acceptance says of an image, in the plain facts that the
//! laws of entries, regions and boot take as their premise. Functions with empty bodies whose
//! contracts are the laws.
#![tactic(auto)]

mod upgrade;

ghost use Rattle.def_image.specs.Accepted.{IsFaultless};
ghost use Rattle.def_image.specs.Parts.{PartsRow};
ghost use Rattle.def_image.specs.Reading.{OneCut, OneReading};
ghost use Rattle.def_image.specs.Sound.{Sound};
ghost use Rattle.def_image.specs.Answers.{EndsWhole, ImagesHaveNoFault, OneFault, PlacesAreOffsets};

pub use upgrade::{upgrade_boots_alike, upgrade_is_accepted};

/// Parts on which no check fails, as those of each accepted image, are sound: RAM and heap, the
/// regions, and by index each device, object, compartment, library, slot, export and thread.
pub fn accepted_is_sound()
    ensures { (p : PartsRow) → IsFaultless p → Sound p }
{}

/// Bytes are cut into the fields of an image in one way, if in any; and they are the image of one
/// list of parts, if of any.
pub fn one_reading()
    ensures cut { OneCut }
    ensures parts { OneReading }
{}

/// An image's bytes have no fault; and other bytes that have one have it alone, at one place.
pub fn one_answer()
    ensures image { ImagesHaveNoFault }
    ensures fault { OneFault }
{}

/// The spelling of fields goes on as no other does: an image's bytes that are cut short, or have
/// bytes appended, are no image's.
pub fn ends_where_written()
    ensures { EndsWhole }
{}

/// Each part's size is the length of its spelling, so that the place of each is its offset in the
/// bytes: after the last thread stands their end.
pub fn places_are_offsets()
    ensures { PlacesAreOffsets }
{}
