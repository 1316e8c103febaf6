//! What it means that a state is confined, what the laws of the moves ask of an image, what a deed
//! needs to be licensed, and the facts about newly made capabilities that the laws take. Definitions
//! alone, in specs/; docs/claims/confinement.md tells the same in prose, part by part.
#![tactic(auto)]
