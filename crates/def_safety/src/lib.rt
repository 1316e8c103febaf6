//! What the claims of clean calls, licensed accesses, keys and tokens, and temporal safety say, of one event and of
//! lists of events, and what they ask of a platform. Definitions alone, in specs/. The laws stand in `law_moves`,
//! `law_events` and `law_history`.
#![tactic(auto)]
