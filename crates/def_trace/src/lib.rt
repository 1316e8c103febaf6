//! The lines of a run: what each event that did something writes, and the summary. Definitions
//! alone, in specs/; docs/use/run.md tells the same in prose.
#![tactic(auto)]
