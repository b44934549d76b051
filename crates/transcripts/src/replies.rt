// The reply lines.
ghost use Rattle.std.specs.Prelude.{◌++◌, ◌∷◌, [], get_or};
ghost use Rattle.table.specs.Cells.{names_of};
ghost use Rattle.wording.specs.Lines.{lf, space};
ghost use Rattle.wording.specs.Writing.{Writes, decimal};
ghost use Rattle.text.specs.Faults.{number_of};
ghost use Rattle.transcripts.specs.Replies.{line_of, refused_line, refused_path_line, path_line, ask_line, grant_fields, finished_line};
ghost use Rattle.transcripts.specs.Replies.{finish_line, withdraw_line};

use compiler::replies::Refusal;
use steps::replies::{Ask, AskReply, FinishReply, Finished, Grant, Next, WithdrawReply};
use table::cells::Table;
use table::numbers::Operation;
use wording::orders::{LF, SPACE};
use wording::writing::Output;

// Why an input or a line of it is refused before it is a text or a call, under the paper's number (document 01, "Numbers of refusal").
#[derive(Clone, Copy)]
pub(crate) enum InputRefusal {
    // an unreadable line
    Unreadable = 16,
    // an input above 65,536 bytes
    LongInput = 17,
}

// A number behind a word, and the line's end.
fn put_last(out: &mut Output, word: &[u8], n: u64)
    ensures { Writes out.old (word.now ++ (decimal n ++ lf ∷ [])) out.new }
{
    out.put_bytes(word);
    out.put_number(n);
    out.put(LF);
}

pub(crate) fn put_refused(out: &mut Output, number: u8)
    ensures { Writes out.old (refused_line number) out.new }
{
    put_last(out, b"refused ", number as u64);
}

// The path is refused.
pub(crate) fn put_refused_path(out: &mut Output, why: Refusal)
    ensures { Writes out.old (refused_path_line (number_of why.fault) why.place) out.new }
{
    out.put_bytes(b"refused ");
    out.put_number(why.fault.number() as u64);
    put_last(out, b" at ", why.place as u64);
}

// The path is accepted.
pub(crate) fn put_path(out: &mut Output, table: &Table)
    ensures { Writes out.old (path_line table.now) out.new }
{
    out.put_bytes(b"path ");
    out.put_number(table.positions as u64);
    out.put(SPACE);
    out.put_number(table.names as u64);
    put_last(out, b" ", table.mark as u64);
}

#[tactic(auto, unfolding(crate::specs::Replies::ask_line, crate::specs::Replies::line_of))]
pub(crate) fn put_ask(out: &mut Output, reply: AskReply)
    ensures { Writes out.old (ask_line reply) out.new }
{
    match reply {
        Ok(Ask::Granted) => out.put_bytes(b"granted\n"),
        Ok(Ask::Delayed(n)) => put_last(out, b"delayed ", n as u64),
        Err(refusal) => put_refused(out, refusal.number()),
    }
}

// The name of an operation of the table; nothing, if the table does not have it.
fn put_name(out: &mut Output, table: &Table, operation: Operation)
    ensures { Writes out.old (get_or (names_of table.now) operation.0 []) out.new }
{
    out.put_bytes(table.name(operation));
}

// Whom a finish hands the line to, and for what.
fn put_grant(out: &mut Output, table: &Table, grant: Grant)
    ensures { Writes out.old (space ∷ line_of (grant_fields table.now grant)) out.new }
{
    out.put_bytes(b" granted ");
    out.put_number(grant.terminal.0 as u64);
    out.put(SPACE);
    put_name(out, table, grant.operation);
    out.put(LF);
}

fn put_finished(out: &mut Output, table: &Table, finished: Finished)
    ensures { Writes out.old (finished_line table.now finished.examined finished.next) out.new }
{
    out.put_bytes(b"finished ");
    out.put_number(finished.examined as u64);
    let next = finished.next;
    match next {
        Next::Granted(grant) => put_grant(out, table, grant),
        Next::Nobody => out.put(LF),
    }
}

#[tactic(auto, unfolding(crate::specs::Replies::finish_line))]
pub(crate) fn put_finish(out: &mut Output, table: &Table, reply: FinishReply)
    ensures { Writes out.old (finish_line table.now reply) out.new }
{
    match reply {
        Ok(finished) => put_finished(out, table, finished),
        Err(refusal) => put_refused(out, refusal.number()),
    }
}

#[tactic(auto, unfolding(crate::specs::Replies::withdraw_line, crate::specs::Replies::line_of))]
pub(crate) fn put_withdraw(out: &mut Output, reply: WithdrawReply)
    ensures { Writes out.old (withdraw_line reply) out.new }
{
    match reply {
        Ok(place) => put_last(out, b"withdrawn ", place as u64),
        Err(refusal) => put_refused(out, refusal.number()),
    }
}
