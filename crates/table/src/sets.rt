// Sets of positions: position p is bit p - 1.
ghost use Rattle.std.specs.Prelude.{◌≡◌, ◌≤◌, length};
ghost use Rattle.meaning.specs.Sets.{meeting, union_of};
ghost use Rattle.table.specs.Following.{positions_with, permission_set};
ghost use Rattle.table.specs.Linking.{single, linked};

use crate::cells::Table;
use crate::numbers::{Operation, Position};

// The set of one position; of a number that is no position's, the empty set.
pub fn set_of(p: Position) -> u64
    ensures { result ≡ single p.0 }
{
    let n = p.0;
    if n == 0 || 64 < n {
        return 0;
    }
    1 << (n - 1)
}

// The two sets share a position.
pub fn meets(s: u64, t: u64) -> bool
    ensures { result ≡ meeting s t }
{
    (s & t) != 0
}

// The union of the rows of the positions of s.
pub fn union_of(rows: &[u64], s: u64) -> u64
    ensures { result ≡ union_of rows.now s }
{
    let mut out = 0;
    let mut rest = s;
    for row in rows {
        if rest % 2 == 1 {
            out |= *row;
        }
        rest /= 2;
    }
    out
}

// Every position in `last` is followed by every position in `first`.
pub fn link(rows: &mut [u64], last: u64, first: u64)
    ensures { rows.new ≡ linked rows.old last first }
{
    let mut rest = last;
    for row in rows.iter_mut() {
        if rest % 2 == 1 {
            *row |= first;
        }
        rest /= 2;
    }
}

// The positions, in a list of their operations, of one operation.
fn positions_with(operations: &[Operation], o: Operation) -> u64
    requires { length operations.now ≤ 64 }
    ensures { result ≡ positions_with operations.now o.0 }
{
    let mut out = 0;
    for (p, operation) in operations.iter().enumerate() {
        if *operation == o {
            out |= 1 << p;
        }
    }
    out
}

impl Table {
    // The permission set of an operation: all its positions.
    #[tactic(auto, unfolding(crate::specs::Following::permission_set))]
    pub fn permission(&self, o: Operation) -> u64
        ensures { result ≡ permission_set self.now o.0 }
    {
        positions_with(self.operations_in_use(), o)
    }
}
