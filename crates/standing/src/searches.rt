// Looking through the waiting list once, from the front: each entry is examined by itself, so that the lent list needs no copy.
ghost use Rattle.std.specs.Prelude.{◌≡◌, take};
ghost use Rattle.std.specs.Int.Bits.{bit_or};
ghost use Rattle.meaning.specs.Sets.{mem};
ghost use Rattle.standing.specs.Searching.{bit_of, operations_in, entry_fits, examined, barred_in, taken_in, searching, looking, looking_next};

use crate::entries::Entry;
use crate::numbers::Terminal;
use crate::records::Session;
use table::cells::Table;
use table::numbers::Operation;
use table::sets::union_of;

// An entry, and the place where it stands, from 0.
#[derive(Clone, Copy)]
pub struct Waiter {
    pub place: usize,
    pub entry: Entry,
}

// What is looked for, and what is found so far.
#[derive(Clone, Copy)]
pub struct Search {
    // whose entry is looked for
    pub terminal: Terminal,
    // the operations of which the first entry is looked for: operation o is bit o
    pub wanted: u64,
    // operations from here on do not exist
    pub names: usize,
    // the operations that no entry may have
    pub barred: u64,
    // the terminals that no further entry may have: terminal t is bit t
    pub taken: u64,
    // every entry so far is as it may be
    pub fits: bool,
    // the first entry of the terminal
    pub own: Option<Waiter>,
    // the first entry of a wanted operation
    pub first: Option<Waiter>,
}

// n is in the set.
fn has(set: u64, n: usize) -> bool
    ensures { result ≡ mem n set }
{
    n < 64 && (set >> n) % 2 == 1
}

// The set, with n; n from 64 on is in no set.
fn with(set: u64, n: usize) -> u64
    ensures { result ≡ bit_or set (bit_of n) }
{
    if n < 64 { set | (1 << n) } else { set }
}

// The operations of the places in a set.
fn operations_at(operations: &[Operation], set: u64) -> u64
    ensures { result ≡ operations_in operations.now set }
{
    let mut out = 0;
    let mut rest = set;
    for operation in operations {
        if rest % 2 == 1 {
            out = with(out, usize::from(operation.0));
        }
        rest /= 2;
    }
    out
}

// The operations of a table's positions that are in a set.
pub fn operations_in(table: &Table, set: u64) -> u64
    ensures { result ≡ operations_in (take table.now.positions table.now.operations) set }
{
    operations_at(table.operations_in_use(), set)
}

// The entry is as it may be, after those so far.
#[tactic(auto, unfolding(crate::specs::Searching::entry_fits))]
fn entry_fits(s: Search, e: Entry) -> bool
    ensures { result ≡ entry_fits s e }
{
    let terminal = usize::from(e.terminal.0);
    let operation = usize::from(e.operation.0);
    terminal < 64 && !has(s.taken, terminal) && operation < s.names && !has(s.barred, operation)
}

// The entry at a place is examined; what was found before stays.
#[tactic(auto, unfolding(crate::specs::Searching::examined))]
pub fn examine(s: Search, e: Entry, place: usize) -> Search
    ensures { result ≡ examined s e place }
{
    let here = Waiter { place, entry: e };
    let is_own = e.terminal == s.terminal;
    let is_wanted = has(s.wanted, usize::from(e.operation.0));
    Search {
        taken: with(s.taken, usize::from(e.terminal.0)),
        fits: s.fits && entry_fits(s, e),
        own: s.own.or(is_own.then_some(here)),
        first: s.first.or(is_wanted.then_some(here)),
        ..s
    }
}

// What a search starts with, for a terminal and for the first entry of a wanted operation.
#[tactic(auto, unfolding(crate::specs::Searching::searching))]
fn search_for(session: Session, terminal: Terminal, wanted: u64) -> Search
    ensures { result ≡ searching session terminal wanted }
{
    let table = session.table;
    let met = operations_in(&table, session.set);
    Search {
        terminal,
        wanted,
        names: table.names,
        barred: barred_in(session.running, met),
        taken: taken_in(session.running),
        fits: true,
        own: None,
        first: None,
    }
}

// While free, no entry may have an operation that meets the set.
fn barred_in(running: Option<Terminal>, met: u64) -> u64
    ensures { result ≡ barred_in running met }
{
    match running {
        None => met,
        Some(_) => 0,
    }
}

// While running, no entry may have the running terminal.
fn taken_in(running: Option<Terminal>) -> u64
    ensures { result ≡ taken_in running }
{
    match running {
        None => 0,
        Some(t) => with(0, usize::from(t.0)),
    }
}

// For an ask and for a withdrawal: the terminal's own entry.
pub fn look_for(session: Session, terminal: Terminal) -> Search
    ensures { result ≡ looking session terminal }
{
    search_for(session, terminal, 0)
}

// For a finish: the first entry whose operation meets the set that it leaves.
pub fn look_for_next(session: Session, terminal: Terminal) -> Search
    ensures { result ≡ looking_next session terminal }
{
    let table = session.table;
    let left = union_of(&table.rows, session.set);
    let wanted = operations_in(&table, left);
    search_for(session, terminal, wanted)
}
