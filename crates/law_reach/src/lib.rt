//! Laws of reach over the definitions alone: each is the contract of a function with an empty body.
#![tactic(auto)]

ghost use Rattle.ct_entry.specs.Listed.{Listed};
ghost use Rattle.def_reach.specs.Laws.{IsReflexive, IsSymmetric, IsTransitive, ReachesComponents};

/// Among the compartments that have an entry, reach is an equivalence: the components of the
/// sharing graph (docs/use/report.md).
pub fn reach_is_an_equivalence()
    ensures reflexive { (e : Listed) → IsReflexive e }
    ensures symmetric { (e : Listed) → IsSymmetric e }
    ensures transitive { (e : Listed) → IsTransitive e }
{}

/// What an owner reaches is a union of components.
pub fn owners_reach_components()
    ensures { (e : Listed) → ReachesComponents e }
{}
