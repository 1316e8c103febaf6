//! The state of the machine, and every kind of change of it as a function: registers, memory, jumps,
//! calls and returns, turns of threads, the heap. Definitions alone, in specs/; docs/claims/confinement.md
//! and docs/use/machine.md tell the same in prose.
#![tactic(auto)]
