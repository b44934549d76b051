// What compiling a text gives.
use table::cells::Table;
use text::faults::Fault;

// What is wrong with the text, and at which place of it.
#[derive(Clone, Copy, Debug, PartialEq, Eq)]
pub struct Refusal {
    pub fault: Fault,
    pub place: usize,
}

// Whether the text is accepted.
pub type Reply = Result<(), Refusal>;

// The reply, and beside it the table; where the text is refused, the table of zeros.
#[derive(Clone, Copy)]
pub struct Compiled {
    pub reply: Reply,
    pub table: Table,
}
