//! What an image boots: its numbered entries, what boot makes of each, what stands in each region and
//! in each granule, and the image and state of the machine. The written definitions stand in specs/;
//! nothing here computes. docs/use/machine.md tells the same in prose.
#![tactic(auto)]
