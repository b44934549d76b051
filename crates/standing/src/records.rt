// The session record.
use crate::numbers::Terminal;
use table::cells::Table;

// A table, a set of positions, free or the running terminal, and the waiting count.
#[derive(Clone, Copy)]
pub struct Session {
    pub table: Table,
    pub set: u64,
    // none while free
    pub running: Option<Terminal>,
    pub waiting: usize,
}
