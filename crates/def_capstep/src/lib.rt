//! What the capability instructions give, as a function of their operands, by the operations on
//! capabilities of def_words. Definitions alone, in specs/; docs/use/capabilities.md tells the same in
//! prose.
#![tactic(auto)]
