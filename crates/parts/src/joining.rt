// The rules for sequence, choice and star (document 01, "The table"), on parts.
ghost use Rattle.std.specs.Prelude.{◌≡◌};
ghost use Rattle.parts.specs.Parts.{either, then, starred, completed, followed};

use table::cells::Table;
use table::sets::link;

// A part: whether it can be empty, its first and last sets, and the table of all that was read so far.
#[derive(Clone, Copy)]
pub struct Part {
    pub empty: bool,
    pub first: u64,
    pub last: u64,
    pub table: Table,
}

// The table with every position in `last` followed by every position in `first`.
fn follow(t: Table, last: u64, first: u64) -> Table
    ensures { result ≡ followed t last first }
{
    let mut out = t;
    link(&mut out.rows, last, first);
    out
}

// l or r, where r was read after l.
pub fn either_part(l: Part, r: Part) -> Part
    ensures { result ≡ either l r }
{
    Part {
        empty: l.empty || r.empty,
        first: l.first | r.first,
        last: l.last | r.last,
        table: r.table,
    }
}

// l and then r, which was read after l.
pub fn then_part(l: Part, r: Part) -> Part
    ensures { result ≡ then l r }
{
    Part {
        empty: l.empty && r.empty,
        first: if l.empty { l.first | r.first } else { l.first },
        last: if r.empty { l.last | r.last } else { r.last },
        table: follow(r.table, l.last, r.first),
    }
}

// p any number of times.
pub fn star_part(p: Part) -> Part
    ensures { result ≡ starred p }
{
    Part {
        empty: true,
        first: p.first,
        last: p.last,
        table: follow(p.table, p.last, p.first),
    }
}

// The table of the whole path: its last positions lead back to its first, where it starts.
pub fn complete(p: Part) -> Table
    ensures { result ≡ completed p }
{
    let mut out = follow(p.table, p.last, p.first);
    out.start = p.first;
    out.mark = out.mark_by_rule();
    out
}
