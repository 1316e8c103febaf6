//! What *Integrity* says: what an event may change, and by what: of granules, of threads, of devices and of the rows
//! of the heap. Definitions alone, in specs/. The laws stand in `law_integrity`.
#![tactic(auto)]
