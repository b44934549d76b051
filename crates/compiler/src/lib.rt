// The compiler: from the text of a path to its table, or a refusal with its number and place.
#![tactic(auto)]

pub mod readers;
pub mod replies;
