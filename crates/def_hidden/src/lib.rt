//! What of RAM the machine's state counts as zero, because firmware never sees it: the trusted region past its first
//! granules, and the heap outside live objects. Definitions alone, in specs/; docs/claims/confinement.md tells the same
//! in prose.
#![tactic(auto)]
