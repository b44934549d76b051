// The core steps, by value: what an opening, an ask, a finish and a withdrawal do that nothing refuses. They test nothing. Of a sound record
// and list they leave a sound one, for an ask by a terminal that neither runs nor waits, a finish with the entry that it picks and a
// withdrawal with its terminal's own (specs/Promises.antt). Callers from outside use the calls, which test.
ghost use Rattle.std.specs.Prelude.{◌≡◌, ◌-◌, Some};
ghost use Rattle.standing.specs.Soundness.{meets_set};
ghost use Rattle.steps.specs.Steps.{opening, granting, counting, freed};
ghost use Rattle.steps.specs.Values.{one_more, ask_core, hand_core, finish_core, withdraw_core};

use crate::outcomes::{Asked, Handed, Taken, Withdrawn};
use crate::replies::{Ask, Finished, Grant, Next};
use standing::entries::Entry;
use standing::records::Session;
use standing::searches::Waiter;
use table::cells::Table;
use table::numbers::Operation;
use table::sets::{meets, union_of};

// The operation meets the set.
fn is_met(session: Session, o: Operation) -> bool
    ensures { result ≡ meets_set session o.0 }
{
    meets(session.set, session.table.permission(o))
}

// The entry is granted: the set becomes what both share, and its terminal runs.
fn granted(session: Session, e: Entry, waiting: usize) -> Session
    ensures { result ≡ granting session e waiting }
{
    Session {
        set: session.set & session.table.permission(e.operation),
        running: Some(e.terminal),
        waiting,
        ..session
    }
}

// The number of entries in use changes, and nothing else.
fn counted(session: Session, count: usize) -> Session
    ensures { result ≡ counting session count }
{
    Session {
        waiting: count,
        ..session
    }
}

// What runs is finished: the set becomes the union of the rows of its positions.
fn set_free(session: Session) -> Session
    ensures { result ≡ freed session }
{
    Session {
        set: union_of(&session.table.rows, session.set),
        running: None,
        ..session
    }
}

// One more, of at most 64.
#[tactic(auto, unfolding(crate::specs::Values::one_more))]
fn one_more(n: usize) -> usize
    ensures { result ≡ one_more n }
{
    if n < 64 { n + 1 } else { n }
}

// An opening over a table: free, the start set, and nobody waits.
pub fn open_step(table: Table) -> Session
    ensures { result ≡ opening table }
{
    Session {
        table,
        set: table.start,
        running: None,
        waiting: 0,
    }
}

// An ask: granted if the record is free and the operation meets the set, else delayed, to wait at the end of the list.
#[tactic(auto, unfolding(crate::specs::Values::ask_core))]
pub fn ask_step(session: Session, e: Entry) -> Asked
    ensures { result ≡ ask_core session e }
{
    let waiting = session.waiting;
    if session.running.is_none() && is_met(session, e.operation) {
        return Asked {
            reply: Ask::Granted,
            session: granted(session, e, waiting),
            waiter: None,
        };
    }
    Asked {
        reply: Ask::Delayed(waiting),
        session: counted(session, one_more(waiting)),
        waiter: Some(Waiter {
            place: waiting,
            entry: e,
        }),
    }
}

// The line is handed on, free after a finish, to the entry that was found.
fn hand_to(session: Session, w: Waiter) -> Handed
    ensures { result ≡ hand_core session (Some w) }
{
    let waiting = session.waiting;
    let next = Next::Granted(Grant {
        terminal: w.entry.terminal,
        operation: w.entry.operation,
    });
    Handed {
        reply: Finished {
            examined: one_more(w.place),
            next,
        },
        session: granted(session, w.entry, waiting.saturating_sub(1)),
        taken: Some(Taken {
            used: waiting,
            place: w.place,
        }),
    }
}

// A finish: the set moves on, and the line goes to the entry that was found first, if any.
#[tactic(auto, unfolding(crate::specs::Values::finish_core))]
pub fn finish_step(session: Session, first: Option<Waiter>) -> Handed
    ensures { result ≡ finish_core session first }
{
    let freed = set_free(session);
    match first {
        Some(w) => hand_to(freed, w),
        None => Handed {
            reply: Finished {
                examined: freed.waiting,
                next: Next::Nobody,
            },
            session: freed,
            taken: None,
        },
    }
}

// A withdrawal: the entry at the place is taken out.
#[tactic(auto, unfolding(crate::specs::Values::withdraw_core))]
pub fn withdraw_step(session: Session, place: usize) -> Withdrawn
    ensures { result ≡ withdraw_core session place }
{
    let waiting = session.waiting;
    Withdrawn {
        session: counted(session, waiting.saturating_sub(1)),
        taken: Taken {
            used: waiting,
            place,
        },
    }
}
