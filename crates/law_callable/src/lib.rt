//! Lemmas of what calls and traps over an engine ask, and no code: of a sound image's entries, and of a confined state's
//! running thread. They stand in proofs/ and are cited from there.
#![tactic(auto)]
