// Document 01, "Program": what is read in a line of `linerun`'s input, and how bytes and numbers are written to its output.
#![tactic(auto)]

pub mod orders;
pub mod writing;
