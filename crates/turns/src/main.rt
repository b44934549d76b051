// Takes a script of calls and shows what each gives: paths, asks, finishes and withdrawals, and cells that are damaged in between. `stdin`
// is such a script, `stdout` what it must give. A line is a letter, then numbers and a name, one space between them; `t N` as the first
// line has the script run N times, from nothing each time, of which the last shows.
#![tactic(auto)]

use compiler::readers::compile;
use inputs::read_full;
use lines::held::Line;
use standing::entries::{Entry, blank_entry};
use standing::numbers::Terminal;
use std::io::Write;
use std::{fmt, io};
use steps::replies::{Ask, CallRefusal, Finished, Next};
use table::numbers::Operation;

// What ends a line of a script.
const NEWLINE: u8 = b'\n';

// No more of a script is read.
const LIMIT: usize = 65536;

// What stands behind the first byte, the space between two fields.
fn behind(text: &[u8]) -> &[u8] {
    text.get(1..).unwrap_or(&[])
}

// The number that a text starts with, and what stands behind it. A digit that makes it too large is passed over.
fn number(text: &[u8]) -> (u64, &[u8]) {
    let mut value = 0u64;
    for (i, b) in text.iter().enumerate() {
        if !b.is_ascii_digit() {
            return (value, &text[i..]);
        }
        if value < u64::MAX / 10 {
            value = value * 10 + u64::from(*b - b'0');
        }
    }
    (value, &[])
}

// What a call that is served shows.
#[derive(Clone, Copy)]
enum Served {
    Opened,
    Asked(Ask),
    Finished(Finished),
    Withdrawn(usize),
}

impl fmt::Display for Served {
    fn fmt<W: fmt::Write>(&self, f: &mut fmt::Formatter<W>) -> fmt::Result {
        match self {
            Served::Opened => f.write_str("opened"),
            Served::Asked(Ask::Granted) => f.write_str("granted"),
            Served::Asked(Ask::Delayed(n)) => write!(f, "delayed {n}"),
            Served::Finished(done) => {
                write!(f, "finished {}", done.examined)?;
                match done.next {
                    Next::Granted(g) => write!(f, " granted {} {}", g.terminal.0, g.operation.0),
                    Next::Nobody => Ok(()),
                }
            }
            Served::Withdrawn(p) => write!(f, "withdrawn {p}"),
        }
    }
}

// The number of its refusal, if a call is not served.
fn show<W: Write>(out: &mut W, reply: Result<Served, CallRefusal>) -> io::Result<()> {
    match reply {
        Ok(served) => writeln!(out, "{served}"),
        Err(why) => writeln!(out, "refused {}", why.number()),
    }
}

// The entries up to the last that is not blank.
fn show_list<W: Write>(out: &mut W, list: &[Entry]) -> io::Result<()> {
    let Some(last) = list.iter().rposition(|e| *e != blank_entry()) else {
        return Ok(());
    };
    for e in &list[..=last] {
        write!(out, " {}.{}", e.terminal.0, e.operation.0)?;
    }
    Ok(())
}

fn show_line<W: Write>(out: &mut W, line: &Line) -> io::Result<()> {
    write!(out, "{}", line.session.set)?;
    match line.session.running {
        None => write!(out, " free")?,
        Some(t) => write!(out, " {}", t.0)?,
    }
    write!(out, " {}", line.session.waiting)?;
    show_list(out, &line.list)?;
    writeln!(out)
}

fn compiled<W: Write>(out: &mut W, line: &mut Line, text: &[u8]) -> io::Result<()> {
    let compiled = compile(text);
    match compiled.reply {
        Ok(()) => show(out, line.open(compiled.table).map(|_| Served::Opened)),
        Err(why) => writeln!(out, "refused {} at {}", why.fault.number(), why.place),
    }
}

// A number cut down to a terminal's or a byte's width.
fn terminal_of(n: u64) -> Terminal {
    Terminal((n % 65536) as u16)
}

fn byte_of(n: u64) -> u8 {
    (n % 256) as u8
}

// One cell gets a value, which need not be one that it may have. The cells are numbered as here; of a row of cells it is the one at a place.
fn damage(line: &mut Line, cell: u64, at: usize, value: u64) {
    match cell {
        0 => line.session.set = value,
        1 => line.session.running = None,
        2 => line.session.running = Some(terminal_of(value)),
        3 => line.session.waiting = value as usize,
        4 if at < 64 => line.list[at].terminal = terminal_of(value),
        5 if at < 64 => line.list[at].operation = Operation(byte_of(value)),
        6 => line.session.table.start = value,
        7 if at < 64 => line.session.table.rows[at] = value,
        8 if at < 64 => line.session.table.operations[at] = Operation(byte_of(value)),
        9 if at < 32 => line.session.table.lengths[at] = byte_of(value),
        10 if at < 512 => line.session.table.bytes[at] = byte_of(value),
        11 => line.session.table.mark = byte_of(value),
        12 => line.session.table.positions = value as usize,
        13 => line.session.table.names = value as usize,
        _ => {}
    }
}

// One line of the script.
fn turn<W: Write>(out: &mut W, line: &mut Line, s: &[u8]) -> io::Result<()> {
    let [letter, rest @ ..] = s else {
        return Ok(());
    };
    let fields = behind(rest);
    let (first, rest) = number(fields);
    let terminal = terminal_of(first);
    match letter {
        b'p' => compiled(out, line, fields),
        b'o' => show(out, line.open(line.session.table).map(|_| Served::Opened)),
        b'a' => show(out, line.ask(terminal, behind(rest)).map(Served::Asked)),
        b'f' => show(out, line.finish(terminal).map(Served::Finished)),
        b'w' => show(out, line.withdraw(terminal).map(Served::Withdrawn)),
        b's' => show_line(out, line),
        b'd' => {
            let (at, rest) = number(behind(rest));
            let (value, _) = number(behind(rest));
            damage(line, first, at as usize, value);
            Ok(())
        }
        _ => Ok(()),
    }
}

// The script, from nothing; what stands behind its last line is none.
fn run<W: Write>(out: &mut W, script: &[u8]) -> io::Result<()> {
    let Some(end) = script.iter().rposition(|b| *b == NEWLINE) else {
        return Ok(());
    };
    let mut line = Line::unopened();
    for text in script[..end].split(|b| *b == NEWLINE) {
        turn(out, &mut line, text)?;
    }
    Ok(())
}

fn times_of(script: &[u8]) -> u64 {
    match script {
        [b't', rest @ ..] => number(behind(rest)).0,
        _ => 1,
    }
}

// All runs but the last are seen by nobody.
fn run_all<W: Write>(out: &mut W, script: &[u8]) -> io::Result<()> {
    let times = times_of(script);
    for _ in 1..times {
        run(&mut io::sink(), script)?;
    }
    if 0 < times {
        run(out, script)?;
    }
    Ok(())
}

fn main(rt: HostRuntime) -> io::Result<()> {
    let mut script = [0; LIMIT];
    let n = read_full(&mut rt.stdin(), &mut script)?;
    run_all(&mut rt.stdout(), &script[..n])
}
