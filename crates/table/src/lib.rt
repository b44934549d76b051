// The table of a path (document 01, "The table"): its cells, its sets of positions, its names, its mark and its soundness.
#![tactic(auto)]

pub mod cells;
pub mod marks;
pub mod names;
pub mod numbers;
pub mod sets;
pub mod soundness;
