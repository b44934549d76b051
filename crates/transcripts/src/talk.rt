// The lines behind the path, one after the other.
ghost use Rattle.std.specs.Prelude.{◌≡◌, ◌≤◌, length};
ghost use Rattle.std.specs.Io.BufRead.{strip_last};
ghost use Rattle.steps.specs.Calling.{Asks, Finishes, Withdraws};
ghost use Rattle.wording.specs.Lines.{lf, lines_of};
ghost use Rattle.transcripts.specs.Replies.{ask_line, finish_line, withdraw_line};
ghost use Rattle.transcripts.specs.Talking.{Replied, Turned, Talked};

use crate::replies::{InputRefusal, put_ask, put_finish, put_refused, put_withdraw};
use lines::held::Line;
use standing::numbers::Terminal;
use wording::orders::{LF, Order, read_line};
use wording::writing::Output;

fn ask_turn(line: &mut Line, terminal: Terminal, name: &[u8], out: &mut Output)
    ensures { Replied ask_line (Asks line.old.session line.old.list terminal name.now) out.old line.new out.new }
{
    let reply = line.ask(terminal, name);
    put_ask(out, reply);
}

fn finish_turn(line: &mut Line, terminal: Terminal, out: &mut Output)
    ensures { Replied (finish_line line.old.session.table) (Finishes line.old.session line.old.list terminal) out.old line.new out.new }
{
    let table = line.session.table;
    let reply = line.finish(terminal);
    put_finish(out, &table, reply);
}

fn withdraw_turn(line: &mut Line, terminal: Terminal, out: &mut Output)
    ensures { Replied withdraw_line (Withdraws line.old.session line.old.list terminal) out.old line.new out.new }
{
    let reply = line.withdraw(terminal);
    put_withdraw(out, reply);
}

// One line of the input.
fn take_turn(line: &mut Line, text: &[u8], out: &mut Output)
    ensures { Turned line.old.session line.old.list text.now out.old line.new out.new }
{
    match read_line(text) {
        Some(Order::Ask(asking)) => ask_turn(line, asking.terminal, &text[asking.from..], out),
        Some(Order::Finish(terminal)) => finish_turn(line, terminal, out),
        Some(Order::Withdraw(terminal)) => withdraw_turn(line, terminal, out),
        None => put_refused(out, InputRefusal::Unreadable as u8),
    }
}

// A line without the LF that ends it, if it has one.
fn without_end(text: &[u8]) -> &[u8]
    ensures { result.now ≡ strip_last lf text.now }
{
    match text {
        [line @ .., LF] => line,
        _ => text,
    }
}

// All of some lines.
pub(crate) fn talk(line: Line, lines: &[u8], out: &mut Output)
    requires { out.old.at ≤ length out.old.bytes.now }
    ensures { Talked line.session line.list (lines_of lines.now) out.old out.new }
{
    let mut line = line;
    for text in lines.split_inclusive(|b| *b == LF) {
        take_turn(&mut line, without_end(text), out);
    }
}
