//! What the trusted region keeps of threads: of each its frames, and of one that doesn't stand in its row its program
//! counter capability and its registers, as functions of the granules of its area. Definitions alone, in specs/;
//! docs/build/inside.md tells the layout in prose.
#![tactic(auto)]
