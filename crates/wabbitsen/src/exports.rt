// What C and Rust call, by the static library `wabbitsen_c`. Each function reads what it is lent, has the function of the same name do the
// work, and writes what it says.
ghost use Rattle.transcripts.specs.Transcript.{Prints};
ghost use Rattle.wabbitsen.specs.Exporting.{CompilesFor, OpensFor, AsksFor, FinishesFor, WithdrawsFor};

use crate::records::Record;
use crate::replies::Reply;
use compiler::readers::compile;
use session::calls::{ask, finish, open, withdraw};
use standing::entries::Entry;
use standing::numbers::Terminal;
use table::cells::Table;
use transcripts::transcript::transcript;

// From the text of a path to its table.
pub fn wabbitsen_compile(text: &[u8], table: &mut Table) -> Reply
    ensures { CompilesFor text.now result table.new }
{
    let compiled = compile(text);
    *table = compiled.table;
    compiled.reply.into()
}

// A session over a table is opened.
pub fn wabbitsen_open(record: &mut Record, list: &mut [Entry], table: &Table) -> Reply
    ensures { OpensFor «record».old list.old table.now result «record».new list.new }
{
    let before = *record;
    let mut session = before.into();
    let reply = open(&mut session, list, *table);
    *record = before.holding(session);
    reply.into()
}

// A terminal asks for the operation of a name.
pub fn wabbitsen_ask(
    record: &mut Record,
    list: &mut [Entry],
    terminal: Terminal,
    name: &[u8],
) -> Reply
    ensures { AsksFor «record».old list.old terminal name.now result «record».new list.new }
{
    let before = *record;
    let mut session = before.into();
    let reply = ask(&mut session, list, terminal, name);
    *record = before.holding(session);
    reply.into()
}

// A terminal finishes what it runs.
pub fn wabbitsen_finish(record: &mut Record, list: &mut [Entry], terminal: Terminal) -> Reply
    ensures { FinishesFor «record».old list.old terminal result «record».new list.new }
{
    let before = *record;
    let mut session = before.into();
    let reply = finish(&mut session, list, terminal);
    *record = before.holding(session);
    reply.into()
}

// A terminal withdraws what it asked for.
pub fn wabbitsen_withdraw(record: &mut Record, list: &mut [Entry], terminal: Terminal) -> Reply
    ensures { WithdrawsFor «record».old list.old terminal result «record».new list.new }
{
    let before = *record;
    let mut session = before.into();
    let reply = withdraw(&mut session, list, terminal);
    *record = before.holding(session);
    reply.into()
}

// What `linerun` prints of an input, as far as the output goes; how many bytes that is.
pub fn wabbitsen_transcript(input: &[u8], out: &mut [u8]) -> usize
    ensures { Prints input.now out.old result out.new }
{
    transcript(input, out)
}
