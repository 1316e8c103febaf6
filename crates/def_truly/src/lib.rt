//! What ties what a machine tells to what it does: a deed that is told was carried out, by the thread and actor that
//! it names, through the entry that it names; what changes devices, frames or the heap is told; a step whose check
//! fails does nothing but trap; and whose turn it is. Beside these, plain facts of what written rules and laws share:
//! what jumps do to interrupts, what an answer is, what an allocation and a free make of rows. Definitions alone, in
//! specs/. The laws stand in `law_truly`.
#![tactic(auto)]
