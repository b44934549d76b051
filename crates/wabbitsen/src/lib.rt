// The compiler, the calls and the transcript for C and Rust: six functions under plain names, over types with C's
// layout. The static library `wabbitsen_c` exports them.
#![tactic(auto)]

pub mod exports;
pub mod records;
pub mod replies;
