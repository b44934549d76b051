// The calls, over the record and the list that the caller lends: each reads them, has the by-value call decide, and writes what it says.
// A call that is refused writes nothing.
ghost use Rattle.std.specs.Prelude.{◌≡◌, length};
ghost use Rattle.standing.specs.Lists.{in_use};
ghost use Rattle.standing.specs.Searching.{looked};
ghost use Rattle.steps.specs.Calling.{Opens, Asks, Finishes, Withdraws};

use crate::lists::{append, blank, find, take_out};
use standing::entries::Entry;
use standing::numbers::Terminal;
use standing::records::Session;
use standing::searches::{Search, look_for, look_for_next};
use steps::calls::{Lent, opened};
use steps::replies::{AskReply, FinishReply, OpenReply, WithdrawReply};
use table::cells::Table;

// What is lent: the record, how many entries the list has, and what the search finds in those that are in use.
// Inlined, so that LLVM sees that the record that is lent is the one that is written: else it copies it over itself by C's `memmove`.
#[inline(always)]
fn lent<'a>(session: &'a Session, list: &[Entry], search: Search) -> Lent<'a>
    ensures { result ≡ record { session = session.entry; entries = length list.now; found = looked 0 search (in_use session.now list.now) } }
{
    Lent {
        session,
        entries: list.len(),
        found: find(list, session.waiting, search),
    }
}

// A session over a table is opened.
pub fn open(session: &mut Session, list: &mut [Entry], table: Table) -> OpenReply
    ensures { Opens session.old list.old table result session.new list.new }
{
    *session = opened(list.len(), table)?;
    blank(list, 64);
    Ok(())
}

// A terminal asks for the operation of a name.
pub fn ask(session: &mut Session, list: &mut [Entry], terminal: Terminal, name: &[u8]) -> AskReply
    ensures { Asks session.old list.old terminal name.now result session.new list.new }
{
    let lent = lent(session, list, look_for(*session, terminal));
    let asked = lent.asked(terminal, name)?;
    *session = asked.session;
    if let Some(w) = asked.waiter {
        append(list, w.place, w.entry);
    }
    Ok(asked.reply)
}

// A terminal finishes what it runs.
pub fn finish(session: &mut Session, list: &mut [Entry], terminal: Terminal) -> FinishReply
    ensures { Finishes session.old list.old terminal result session.new list.new }
{
    let lent = lent(session, list, look_for_next(*session, terminal));
    let handed = lent.finished(terminal)?;
    *session = handed.session;
    if let Some(taken) = handed.taken {
        take_out(list, taken.used, taken.place);
    }
    Ok(handed.reply)
}

// A terminal withdraws what it asked for.
pub fn withdraw(session: &mut Session, list: &mut [Entry], terminal: Terminal) -> WithdrawReply
    ensures { Withdraws session.old list.old terminal result session.new list.new }
{
    let lent = lent(session, list, look_for(*session, terminal));
    let withdrawn = lent.withdrawn(terminal)?;
    *session = withdrawn.session;
    let taken = withdrawn.taken;
    take_out(list, taken.used, taken.place);
    Ok(taken.place)
}
