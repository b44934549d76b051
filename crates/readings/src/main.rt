// Compiles each text of its input and shows what it reads as: document 01's sample readings and limits, which `stdin` holds and
// `stdout` answers. A text ends at a `~`, which no path has; the byte behind that is passed over.
#![tactic(auto)]

use compiler::readers::compile;
use inputs::read_full;
use std::io::Write;
use std::{fmt, io};
use table::cells::Table;
use table::numbers::Operation;

// The byte behind a text.
const TILDE: u8 = b'~';

// No more of an input is read.
const LIMIT: usize = 65536;

// A set of positions, which the document writes from 1.
#[derive(Clone, Copy)]
struct Positions(u64);

impl fmt::Display for Positions {
    fn fmt<W: fmt::Write>(&self, f: &mut fmt::Formatter<W>) -> fmt::Result {
        f.write_str("{")?;
        let mut between = "";
        for p in 0..64u32 {
            if self.0 >> p & 1 == 1 {
                write!(f, "{between}{}", p + 1)?;
                between = " ";
            }
        }
        f.write_str("}")
    }
}

fn print_rows<W: Write>(out: &mut W, table: &Table) -> io::Result<()> {
    write!(out, " rows")?;
    for row in table.rows.iter().take(table.positions) {
        write!(out, " {}", Positions(*row))?;
    }
    Ok(())
}

fn print_operations<W: Write>(out: &mut W, table: &Table) -> io::Result<()> {
    write!(out, " operations")?;
    for operation in table.operations.iter().take(table.positions) {
        write!(out, " {}", operation.0)?;
    }
    Ok(())
}

fn print_names<W: Write>(out: &mut W, table: &Table) -> io::Result<()> {
    write!(out, " names")?;
    for i in 0..table.names.min(32) {
        write!(out, " ")?;
        out.write_all(table.name(Operation(i as u8)))?;
    }
    Ok(())
}

fn print_table<W: Write>(out: &mut W, table: &Table) -> io::Result<()> {
    write!(
        out,
        "path {} {} {}",
        table.positions, table.names, table.mark
    )?;
    write!(out, " start {}", Positions(table.start))?;
    print_rows(out, table)?;
    print_operations(out, table)?;
    print_names(out, table)?;
    writeln!(out)
}

fn show<W: Write>(out: &mut W, text: &[u8]) -> io::Result<()> {
    let r = compile(text);
    match r.reply {
        Ok(()) => print_table(out, &r.table),
        Err(why) => writeln!(out, "refused {} at {}", why.fault.number(), why.place),
    }
}

// Each text of an input; what stands behind the last `~` is none.
fn show_all<W: Write>(out: &mut W, input: &[u8]) -> io::Result<()> {
    let Some(end) = input.iter().rposition(|b| *b == TILDE) else {
        return Ok(());
    };
    let mut texts = input[..end].split(|b| *b == TILDE);
    if let Some(first) = texts.next() {
        show(out, first)?;
    }
    for text in texts {
        if let [_, text @ ..] = text {
            show(out, text)?;
        }
    }
    Ok(())
}

fn main(rt: HostRuntime) -> io::Result<()> {
    let mut input = [0; LIMIT];
    let n = read_full(&mut rt.stdin(), &mut input)?;
    show_all(&mut rt.stdout(), &input[..n])
}
