// Document 01, "Program": all that `linerun` does, from the bytes of its input to the bytes of its output.
#![tactic(auto)]

mod replies;
mod talk;
pub mod transcript;
