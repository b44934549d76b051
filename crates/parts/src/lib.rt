// Parts of a path: what is known of a name, a sequence, a choice or a starred part once it is read.
#![tactic(auto)]

pub mod joining;
pub mod placing;
