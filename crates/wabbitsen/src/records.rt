// The session record as C sees it: who runs is two cells.
ghost use Rattle.std.specs.Prelude.{◌≡◌};
ghost use Rattle.wabbitsen.specs.Exporting.{running_in, session_in, terminal_cell, running_cell, holding};

use standing::numbers::Terminal;
use standing::records::Session;
use table::cells::Table;

// `running` is 0 while the line is free; the cell `terminal` then says nothing.
#[repr(C)]
#[derive(Clone, Copy)]
pub struct Record {
    pub table: Table,
    pub set: u64,
    pub waiting: usize,
    pub terminal: Terminal,
    pub running: u8,
}

// None while free, or the running terminal.
fn running_in(before: Record) -> Option<Terminal>
    ensures { result ≡ running_in before }
{
    (before.running != 0).then_some(before.terminal)
}

// The session that a record stands for.
impl From<Record> for Session {
    ghost from_gives = { λ before session. session ≡ session_in before };

    fn from(before: Record) -> Session {
        Session {
            table: before.table,
            set: before.set,
            running: running_in(before),
            waiting: before.waiting,
        }
    }
}

// The cell `terminal` beside who runs: while free it stays as it was.
fn terminal_cell(before: Record, running: Option<Terminal>) -> Terminal
    ensures { result ≡ terminal_cell before running }
{
    running.unwrap_or(before.terminal)
}

// The cell `running` beside who runs: one that says running already stays as it was.
fn running_cell(before: Record, running: Option<Terminal>) -> u8
    ensures { result ≡ running_cell before running }
{
    match running {
        None => 0,
        Some(_) if before.running == 0 => 1,
        Some(_) => before.running,
    }
}

impl Record {
    // The record with a session in it.
    pub fn holding(self, session: Session) -> Record
        ensures { result ≡ holding self session }
    {
        Record {
            table: session.table,
            set: session.set,
            waiting: session.waiting,
            terminal: terminal_cell(self, session.running),
            running: running_cell(self, session.running),
        }
    }
}
