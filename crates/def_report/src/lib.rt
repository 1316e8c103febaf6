//! The audit report of an image (docs/use/report.md): one line of JSON over the image's parts, its
//! entries and the edges of its sharing graph.
//!
//! The report is a JSON value from the parts; its text is that value's compact text as the JSON
//! library defines it. The definitions stand in specs/: Labels has the texts beside each entry, Edges
//! a test of neighbours, Lines the value of each entry, Report the whole.
#![tactic(auto)]
