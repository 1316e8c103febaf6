//! Fields of words, signed numbers in them, and least multiples, by division and remainder. The
//! written definitions stand in specs/; nothing here computes.
#![tactic(auto)]
