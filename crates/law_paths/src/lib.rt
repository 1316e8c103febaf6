//! The law of paths: where an owner reaches a compartment one of the paths comes before all others, and
//! whether it does can be told. It says of the definitions what the graph finds. A function with an
//! empty body whose contract is the law.
#![tactic(auto)]

ghost use Rattle.std.specs.Prelude.{◌≢◌, ◌<◌, ◌^◌, length, ℕ};
ghost use Rattle.ct_entry.specs.declared.rows.Owner.{Owner};
ghost use Rattle.ct_entry.specs.declared.rows.Owner.TheVariants.{Trusted};
ghost use Rattle.ct_entry.specs.Listed.{Listed};
ghost use Rattle.def_reach.specs.There.{LeadsOrNot};

/// Of any entries, of which there are fewer than 2^32, an owner that isn't the trusted part reaches a
/// compartment by a path that comes before all others, or doesn't reach it.
pub fn paths_are_there()
    ensures { (e : Listed) (o : Owner) (c : ℕ) → length e.rows < 2 ^ 32 → o ≢ Trusted
        → LeadsOrNot e o c }
{}
