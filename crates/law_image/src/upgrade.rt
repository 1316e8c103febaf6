//! Laws of the upgrade: an image in the last version of the format, with its sweep rate kept, is the
//! same firmware. Functions with empty bodies whose contracts are the laws.

ghost use Rattle.def_image.specs.Parts.{PartsRow};
ghost use Rattle.def_boot.specs.Upgrade.{StaysFaultless, BootsAlike};

/// An accepted image is accepted when it is upgraded.
pub fn upgrade_is_accepted()
    ensures { StaysFaultless }
{}

/// Its entries, board and state at boot are those of the old one; so each run of it is, and what its
/// report says of these and of its names.
pub fn upgrade_boots_alike()
    ensures { (p : PartsRow) → BootsAlike p }
{}
