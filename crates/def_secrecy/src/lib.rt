//! What *Secrecy* says: what a thread may see of a state, when two states agree on it, and that its steps, all events
//! and runs go by that alone. Definitions alone, in specs/. The laws stand in `law_secrecy`.
#![tactic(auto)]
