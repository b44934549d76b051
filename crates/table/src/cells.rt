// The table.
ghost use Rattle.std.specs.Prelude.{◌≡◌, take};
ghost use Rattle.table.specs.Cells.{zeros};

use crate::numbers::Operation;

// The counts, the start set, each position's operation and row, each name's length and bytes (name i from byte 16 i on), and
// the mark; zeros in every unused cell. C sees the same cells, so they are arrays and counts, and the mark is a number.
#[repr(C)]
#[derive(Clone, Copy)]
pub struct Table {
    pub positions: usize,
    pub names: usize,
    pub start: u64,
    pub operations: [Operation; 64],
    pub rows: [u64; 64],
    pub lengths: [u8; 32],
    pub bytes: [u8; 512],
    pub mark: u8,
}

// The table of zeros, which a refused compile returns.
pub fn table_of_zeros() -> Table
    ensures { result ≡ zeros }
{
    Table {
        positions: 0,
        names: 0,
        start: 0,
        operations: [Operation(0); 64],
        rows: [0; 64],
        lengths: [0; 32],
        bytes: [0; 512],
        mark: 0,
    }
}

impl Table {
    // The operations of the positions in use.
    pub fn operations_in_use(&self) -> &[Operation]
        ensures { result.now ≡ take self.now.positions self.now.operations }
    {
        &self.operations[..self.positions.min(64)]
    }
}
