// Document 01, "Sessions": the session record and the entries of the waiting list, when they are sound, and looking through the entries.
#![tactic(auto)]

pub mod entries;
pub mod numbers;
pub mod records;
pub mod searches;
pub mod soundness;
