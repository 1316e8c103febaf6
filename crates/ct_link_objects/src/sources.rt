//! The texts that a description's files hold.

use std::marker::Model;

/// One text for each code that is a file: compartments first, then libraries.
#[derive(Drop)]
pub struct Sources {
    pub texts: Vec<Vec<u8>>,
}

impl Model for Sources {
    ghost use Rattle.std.specs.Prelude.{List, map, ℕ};

    ghost Value = { List (List ℕ) };

    ghost view = { λ s. map (λ t. t.items) s.texts.items };
}
