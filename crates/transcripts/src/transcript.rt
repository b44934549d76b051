// The whole output.
ghost use Rattle.std.specs.Prelude.{◌≡◌, replicate};
ghost use Rattle.table.specs.Soundness.{Sound};
ghost use Rattle.standing.specs.Lists.{blank_entry};
ghost use Rattle.steps.specs.Steps.{opening};
ghost use Rattle.wording.specs.Lines.{lines_of};
ghost use Rattle.transcripts.specs.Talking.{Ran, Printed};
ghost use Rattle.transcripts.specs.Transcript.{Prints};

use crate::replies::{InputRefusal, put_path, put_refused, put_refused_path};
use crate::talk::talk;
use compiler::readers::compile;
use lines::held::Line;
use table::cells::Table;
use wording::orders::{LF, bytes_before};
use wording::writing::Output;

// A line is opened over a sound table.
fn opened(table: Table) -> Line
    requires { Sound table }
    ensures { (result.session ≡ opening table) × (result.list ≡ replicate 64 blank_entry) }
{
    let mut line = Line::unopened();
    // A sound table is not refused.
    let _ = line.open(table);
    line
}

// From an accepted path on.
fn run(table: Table, lines: &[u8], out: &mut Output)
    requires { Sound table }
    ensures { Ran table (lines_of lines.now) out.old out.new }
{
    put_path(out, &table);
    talk(opened(table), lines, out);
}

// All that `linerun` prints of an input.
#[tactic(auto, using(crate::proofs::Wholes::end_within))]
fn put_transcript(out: &mut Output, input: &[u8])
    ensures { Printed input.now out.old out.new }
{
    if 65536 < input.len() {
        return put_refused(out, InputRefusal::LongInput as u8);
    }
    let end = bytes_before(input, LF);
    let compiled = compile(&input[..end]);
    match compiled.reply {
        // Behind the path and its LF, if it has one.
        Ok(()) => run(compiled.table, &input[(end + 1).min(input.len())..], out),
        Err(why) => put_refused_path(out, why),
    }
}

// What `linerun` prints of an input, as far as the output goes.
pub fn transcript(input: &[u8], out: &mut [u8]) -> usize
    ensures { Prints input.now out.old result out.new }
{
    let mut output = Output { bytes: out, at: 0 };
    put_transcript(&mut output, input);
    output.at
}
