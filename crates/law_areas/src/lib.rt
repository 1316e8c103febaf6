//! Lemmas of the threads' areas, over their definitions alone: frames and saved registers are functions of the granules
//! in which they stand; what is written for a frame is read as that frame; and which granules a store, a capability
//! store and a clearing touch.
#![tactic(auto)]
