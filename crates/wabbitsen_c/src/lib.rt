// The static library for C and Rust (include/wabbitsen.h): each function is the one of `wabbitsen` that has its name, with its contract.
#![tactic(auto)]

ghost use Rattle.transcripts.specs.Transcript.{Prints};
ghost use Rattle.wabbitsen.specs.Exporting.{CompilesFor, OpensFor, AsksFor, FinishesFor, WithdrawsFor};

use standing::entries::Entry;
use standing::numbers::Terminal;
use table::cells::Table;
use wabbitsen::exports;
use wabbitsen::records::Record;
use wabbitsen::replies::Reply;

// From the text of a path to its table.
#[unsafe(no_mangle)]
pub extern "C" fn wabbitsen_compile(text: &[u8], table: &mut Table) -> Reply
    ensures { CompilesFor text.now result table.new }
{
    exports::wabbitsen_compile(text, table)
}

// A session over a table is opened.
#[unsafe(no_mangle)]
pub extern "C" fn wabbitsen_open(record: &mut Record, list: &mut [Entry], table: &Table) -> Reply
    ensures { OpensFor «record».old list.old table.now result «record».new list.new }
{
    exports::wabbitsen_open(record, list, table)
}

// A terminal asks for the operation of a name.
#[unsafe(no_mangle)]
pub extern "C" fn wabbitsen_ask(
    record: &mut Record,
    list: &mut [Entry],
    terminal: Terminal,
    name: &[u8],
) -> Reply
    ensures { AsksFor «record».old list.old terminal name.now result «record».new list.new }
{
    exports::wabbitsen_ask(record, list, terminal, name)
}

// A terminal finishes what it runs.
#[unsafe(no_mangle)]
pub extern "C" fn wabbitsen_finish(
    record: &mut Record,
    list: &mut [Entry],
    terminal: Terminal,
) -> Reply
    ensures { FinishesFor «record».old list.old terminal result «record».new list.new }
{
    exports::wabbitsen_finish(record, list, terminal)
}

// A terminal withdraws what it asked for.
#[unsafe(no_mangle)]
pub extern "C" fn wabbitsen_withdraw(
    record: &mut Record,
    list: &mut [Entry],
    terminal: Terminal,
) -> Reply
    ensures { WithdrawsFor «record».old list.old terminal result «record».new list.new }
{
    exports::wabbitsen_withdraw(record, list, terminal)
}

// What `linerun` prints of an input, as far as the output goes; how many bytes that is.
#[unsafe(no_mangle)]
pub extern "C" fn wabbitsen_transcript(input: &[u8], out: &mut [u8]) -> usize
    ensures { Prints input.now out.old result out.new }
{
    exports::wabbitsen_transcript(input, out)
}
