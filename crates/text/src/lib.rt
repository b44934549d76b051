// Bytes and tokens of a path text (document 01, "Path text").
#![tactic(auto)]

pub mod classes;
pub mod faults;
pub mod tokens;
