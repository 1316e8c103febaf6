//! What each event of a machine upholds, whatever its code bytes are, as one record; what holds of a machine at every
//! moment; and what single events are held to: causes, counts, shadows, openings. Definitions alone, in specs/. The
//! laws stand in `law_events`, `law_history` and `law_accepted`.
#![tactic(auto)]
