// Document 01, "Sessions": the calls, over a record and a list that the caller lends.
#![tactic(auto)]

pub mod calls;
pub mod lists;
