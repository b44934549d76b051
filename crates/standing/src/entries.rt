// The entries of the waiting list.
ghost use Rattle.std.specs.Prelude.{◌≡◌};
ghost use Rattle.standing.specs.Lists.{blank_entry};

use crate::numbers::Terminal;
use table::numbers::Operation;

// A terminal, and the operation that it waits for.
#[repr(C)]
#[derive(Clone, Copy, Debug, PartialEq, Eq)]
pub struct Entry {
    pub terminal: Terminal,
    pub operation: Operation,
}

// Terminal 0, operation 0.
pub fn blank_entry() -> Entry
    ensures { result ≡ blank_entry }
{
    Entry {
        terminal: Terminal(0),
        operation: Operation(0),
    }
}
