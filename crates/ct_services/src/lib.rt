//! Native routines: what the switch, yield, sleep, wait and wake make of the running thread and of the
//! scheduler, and allocate, free, remaining and those of keys and tokens of it and of the heap.
//!
//! Contracts say that a routine comes to what the written one of def_step comes to (of each image whose RAM, heap and
//! quotas lie where the engine's do, and, of the switch, whose callee the engine holds), in each state of the machine that holds what is seen of an engine and of the
//! scheduler (specs/Serves). Where a check of c1, or of the word that c10 names, fails, that is the trap, and nothing
//! changes. Else the thread goes on where c1 leads with its result in c10, or rests: what else fails is the answer, a
//! trap is not. No call takes the host's memory. docs/use/machine.md tells the rules in prose.
#![tactic(auto)]

mod answering;
mod calling;
mod granting;
mod resting;
mod routines;
mod sealing;
mod words;

pub use answering::answer;
pub use routines::serve;
