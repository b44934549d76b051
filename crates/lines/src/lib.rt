// A line held by value, for programs: the record and the list are lent to the calls here, and nowhere above.
#![tactic(auto)]

pub mod held;
