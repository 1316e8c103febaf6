//! What a source means, said of the whole of it: where statements stand, by sums of lengths; how each is written; what
//! its words decode to; and what the pseudo instructions do to a thread. Definitions alone, in specs/;
//! docs/use/assembler.md tells the same in prose.
#![tactic(auto)]
