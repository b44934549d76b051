// The mark: whether the path is deterministic.
ghost use Rattle.std.specs.Prelude.{◌≡◌};
ghost use Rattle.table.specs.Marks.{none_twice, mark_of};

use crate::cells::Table;
use crate::numbers::Operation;

// No operation stands twice among them.
fn none_twice(operations: &[Operation]) -> bool
    ensures { result ≡ none_twice operations.now }
{
    operations
        .iter()
        .enumerate()
        .all(|(p, o)| !operations[p + 1..].contains(o))
}

impl Table {
    // The mark that the rule gives the table, whatever mark it has.
    #[tactic(auto, using(crate::proofs::Taking::byte_of_bit), unfolding(crate::specs::Marks::mark_of))]
    pub fn mark_by_rule(&self) -> u8
        ensures { result ≡ mark_of self.now }
    {
        u8::from(none_twice(self.operations_in_use()))
    }
}
