//! Lemmas that many proofs share, and no code: after one element of a list was set, after a list
//! was mapped, a list mapped so far, elements by their places, and tests that tell.
//! They stand in proofs/ and are cited from there.
#![tactic(auto)]
