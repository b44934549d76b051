// Document 01, "Sessions", by value: the replies, what each call does to a record, and what it has done with the list.
#![tactic(auto)]

pub mod calls;
pub mod outcomes;
pub mod replies;
pub mod steps;
