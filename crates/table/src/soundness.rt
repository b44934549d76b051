// Whether a table is sound: "A table is sound if ..", clause by clause.
ghost use Rattle.std.specs.Prelude.{◌≡◌, true, ◌↔◌, ◌*◌, ◌≤◌, ◌<◌, length, take, cond, eqb, ltb};
ghost use Rattle.table.specs.Cells.{spellings};
ghost use Rattle.table.specs.Soundness.{Sound};
ghost use Rattle.table.specs.Tests.{counts_test, fit_test, row_test, rows_test, operation_test, operations_test, BitsSuffice, placed_in, each_placed_test, zeros_test, fresh_test, name_test, names_test};

use crate::cells::Table;
use crate::numbers::Operation;
use text::tokens::well_formed;

// The set is not empty and names only the first n positions.
#[tactic(auto, using(crate::proofs::Shifting::shifted_empty, crate::proofs::Shifting::below_wide), unfolding(crate::specs::Tests::fit_test))]
pub fn fits(s: u64, n: usize) -> bool
    ensures { result ≡ fit_test s n }
{
    s != 0 && (64 <= n || s >> n == 0)
}

// A row in use fits, another is zero.
fn row_fits(row: u64, p: usize, n: usize) -> bool
    ensures { result ≡ row_test row p n }
{
    if p < n { fits(row, n) } else { row == 0 }
}

// An operation in use is below the name count, another is zero.
fn operation_fits(o: Operation, p: usize, n: usize, names: usize) -> bool
    ensures { result ≡ operation_test o.0 p n names }
{
    if p < n {
        usize::from(o.0) < names
    } else {
        o.0 == 0
    }
}

// Some operations, as a set: operation o is bit o.
fn placed(operations: &[Operation]) -> u64
    requires { BitsSuffice operations.now }
    ensures { result ≡ placed_in operations.now }
{
    let mut out = 0;
    for o in operations {
        out |= 1u64 << o.0;
    }
    out
}

// The bytes from `from` up to `to` are zero.
fn zeros(bytes: &[u8], from: usize, to: usize) -> bool
    requires { (from ≤ to) × (to ≤ length bytes.now) }
    ensures { result ≡ zeros_test bytes.now from to }
{
    // All bytes in one, with no way out before the last: a processor takes many at a time.
    let mut any = 0;
    for b in &bytes[from..to] {
        any |= *b;
    }
    any == 0
}

impl Table {
    // The counts are 1 to 64 and 1 to 32.
    fn counts_fit(&self) -> bool
        ensures { result ≡ counts_test self.now.positions self.now.names }
    {
        1 <= self.positions && self.positions <= 64 && 1 <= self.names && self.names <= 32
    }

    // The rows of positions fit, and those behind them are zero.
    fn rows_fit(&self) -> bool
        ensures { result ≡ rows_test self.now.rows self.now.positions }
    {
        self.rows
            .iter()
            .enumerate()
            .all(|(p, row)| row_fits(*row, p, self.positions))
    }

    // The operations of positions are below the name count, and those behind them are zero.
    fn operations_fit(&self) -> bool
        ensures { result ≡ operations_test self.now.operations self.now.positions self.now.names }
    {
        self.operations
            .iter()
            .enumerate()
            .all(|(p, o)| operation_fits(*o, p, self.positions, self.names))
    }

    // Each operation below the name count has a position: one pass gathers them, and one comparison tells.
    fn each_placed(&self) -> bool
        requires positions { self.now.positions ≤ 64 }
        requires names { self.now.names ≤ 32 }
        requires operations { operations_test self.now.operations self.now.positions self.now.names ≡ true }
        ensures { result ≡ each_placed_test self.now.operations self.now.positions self.now.names }
    {
        let all = (1u64 << self.names) - 1;
        (placed(&self.operations[..self.positions]) & all) == all
    }

    // A name is well formed, and not among the first i there are.
    #[tactic(auto, unfolding(crate::specs::Tests::fresh_test))]
    fn is_fresh(&self, i: usize, name: &[u8]) -> bool
        ensures { result ≡ fresh_test name.now (take i (spellings self.now.lengths self.now.bytes)) }
    {
        well_formed(name) && self.find_among(i, name).is_none()
    }

    // Name i is fresh if it is in use, and else has no bytes.
    fn use_fits(&self, i: usize, name: &[u8]) -> bool
        ensures { result ≡ cond (ltb i self.now.names) (fresh_test name.now (take i (spellings self.now.lengths self.now.bytes))) (eqb (length name.now) 0) }
    {
        if i < self.names {
            self.is_fresh(i, name)
        } else {
            name.is_empty()
        }
    }

    // Name i, of n bytes, is short and as its use wants it, and the bytes kept for it behind it are zero.
    #[tactic(auto, unfolding(crate::specs::Tests::name_test))]
    fn name_fits(&self, i: usize, n: usize) -> bool
        requires { i < 32 }
        ensures { result ≡ name_test i n self.now.names self.now.lengths self.now.bytes }
    {
        n <= 16
            && self.use_fits(i, &self.bytes[16 * i..16 * i + n])
            && zeros(&self.bytes, 16 * i + n, 16 * i + 16)
    }

    // The names in use fit, and the cells of the others are zero.
    fn names_fit(&self) -> bool
        ensures { result ≡ names_test self.now.names self.now.lengths self.now.bytes }
    {
        self.lengths
            .iter()
            .enumerate()
            .all(|(i, n)| self.name_fits(i, usize::from(*n)))
    }

    // The table is sound.
    #[tactic(auto, using(crate::proofs::SoundTests::tests_decide_sound), unfolding(crate::specs::Tests::sound_test))]
    pub fn is_sound(&self) -> bool
        ensures { (result ≡ true) ↔ Sound self.now }
    {
        self.counts_fit()
            && self.operations_fit()
            && self.each_placed()
            && fits(self.start, self.positions)
            && self.rows_fit()
            && self.names_fit()
            && self.mark == self.mark_by_rule()
    }
}
