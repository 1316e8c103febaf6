//! Lemmas of memory whose hidden granules read as zero, over definitions alone. What isn't hidden reads as it stands;
//! changes of it, and what the step's accesses, fetches and load filter make of it, are the same before and behind;
//! changes of what stays hidden aren't seen. Where the heap hides what lies outside its live objects, what stays hidden
//! keeps its objects, an object that comes or goes changes what is seen by itself alone, and a slice of a sweep is the
//! same before and behind.
#![tactic(auto)]
