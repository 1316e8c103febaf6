//! Roots, the sharing graph, reach and its paths, over the report's entries: what the number that a
//! capability carries stands for, which compartments a capability may pass between, and whom an owner
//! reaches. Definitions alone, in specs/; docs/claims/confinement.md tells the same in prose.
#![tactic(auto)]
