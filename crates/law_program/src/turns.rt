//! That exactly one turn follows after any files.

ghost use Rattle.std.specs.Prelude.{◌≡◌, ℕ, List};
ghost use Rattle.def_program.specs.Commands.{Command};
ghost use Rattle.def_program.specs.Following.{AreContents, HasTurn};
ghost use Rattle.def_program.specs.Turns.{Follows, Turn};

/// After the same files a command has no two turns: one file is due, or one status with one text (`one`). After any
/// files of a size that is taken, whatever their bytes are, it has a turn (`there`). So it has exactly one.
pub fn one_turn()
    ensures one { (c : Command) (files : List (List ℕ)) (turn other : Turn)
        → Follows c files turn → Follows c files other → turn ≡ other }
    ensures there { (c : Command) (files : List (List ℕ)) → AreContents files → HasTurn c files }
{}
