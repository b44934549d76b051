// Reads an input, at most one byte more than is allowed, and writes its transcript. All that is read in it and printed of it is
// `transcripts::transcript::transcript`'s, whose contract says the exact output; here are only the calls that read and write.
#![tactic(auto)]

ghost use Rattle.std.specs.Prelude.{◌≡◌, length, OnOk, IfSome};
ghost use Rattle.linerun.specs.Running.{WritesTranscript};

use inputs::read_full;
use std::io;
use std::io::{Read, Write};
use transcripts::transcript::transcript;

// One byte more than an input may have.
fn input_buffer() -> [u8; 65537]
    ensures { 65537 ≡ length result }
{
    [0; 65537]
}

// No transcript is longer (`transcript_fits`).
fn output_buffer() -> [u8; 720914]
    ensures { 720914 ≡ length result }
{
    [0; 720914]
}

// What is written is the transcript of all that the reader has left, where its bytes are known.
fn run<R: Read, W: Write>(from: &mut R, out: &mut W) -> io::Result<()>
    ensures { OnOk result (IfSome (R.remaining from.old) (λ input. WritesTranscript input (W.contents out.old) (W.contents out.new))) }
{
    let mut input = input_buffer();
    let n = read_full(from, &mut input)?;
    let mut output = output_buffer();
    let said = transcript(&input[..n], &mut output);
    out.write_all(&output[..said])
}

fn main(rt: HostRuntime) -> io::Result<()> {
    run(&mut rt.stdin(), &mut rt.stdout())
}
