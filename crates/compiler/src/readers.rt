// The three readers, and the compiler above them. Each reads from the front of what is left of the text and says how many bytes it
// leaves unread, so that the answer of what it calls last is its own.
ghost use Rattle.std.specs.Prelude.{ℕ, ◌≡◌, ◌+◌, ◌≤◌, length};
ghost use Rattle.compiler.specs.Reading.{fault_of, seen, read_so, part_read, closed, closed_so, then_read, or_read, factor_from, sequence_from, ends_sequence, ends_expression, made, concluded, ended, StarsRead, StarryRead, FactorRead, SequenceRead, ExpressionRead};
ghost use Rattle.compiler.specs.Computed.{compiled};
ghost use Rattle.compiler.specs.Compiling.{Compiles};
ghost use Rattle.parts.specs.declared.joining.Part.{Part};
ghost use Rattle.text.specs.Tokens.{next_token};
ghost use Rattle.text.specs.declared.tokens.Token.TheVariants.{Name};

use crate::replies::{Compiled, Refusal};
use parts::joining::{Part, complete, either_part, star_part, then_part};
use parts::placing::place;
use table::cells::{Table, table_of_zeros};
use text::faults::Fault;
use text::tokens::{Token, next};

// A part, with `left` bytes unread behind it.
#[derive(Clone, Copy)]
struct Reading {
    left: usize,
    part: Part,
}

// Why reading ends, with `left` bytes from the place on.
#[derive(Clone, Copy)]
struct Halt {
    fault: Fault,
    left: usize,
}

// The fault of a token that does not fit where it stands.
fn fault_of(token: Token) -> Fault
    ensures { result ≡ fault_of token }
{
    match token {
        Token::Bad => Fault::BadByte,
        Token::Long => Fault::LongName,
        _ => Fault::Misplaced,
    }
}

// l and then r, which was read after l.
fn then_read(l: Reading, r: Reading) -> Reading
    ensures { read_so result ≡ then_read (read_so l) (read_so r) }
{
    Reading {
        left: r.left,
        part: then_part(l.part, r.part),
    }
}

// l or r, which was read after l.
fn or_read(l: Reading, r: Reading) -> Reading
    ensures { read_so result ≡ or_read (read_so l) (read_so r) }
{
    Reading {
        left: r.left,
        part: either_part(l.part, r.part),
    }
}

// Where the next factor of a sequence starts: behind a `;`, or at once.
fn next_factor(s: &[u8], left: usize) -> Option<usize>
    requires { left ≤ length s.now }
    ensures { result ≡ factor_from s.now left }
{
    let k = s.len() - left;
    let r = next(&s[k..]);
    match r.token {
        Token::Semicolon => Some(k + r.used),
        Token::Name(_) | Token::Open => Some(k),
        _ => None,
    }
}

// Where the next sequence of a sum starts: behind a `+`.
fn next_sequence(s: &[u8], left: usize) -> Option<usize>
    requires { left ≤ length s.now }
    ensures { result ≡ sequence_from s.now left }
{
    let k = s.len() - left;
    let r = next(&s[k..]);
    match r.token {
        Token::Plus => Some(k + r.used),
        _ => None,
    }
}

// How many bytes any number of `*` use up, in a loop: thousands of them must not deepen the stack.
fn stars(s: &[u8]) -> usize
    ensures { StarsRead s.now result }
{
    let mut used = 0;
    loop {
        let r = next(&s[used..]);
        match r.token {
            Token::Star => used += r.used,
            _ => return used,
        }
    }
}

// p, with the stars that may follow it. It is lent, as the tables of the readers are: a part is more than a kilobyte.
fn starry(s: &[u8], p: &mut Reading)
    requires { p.old.left ≤ length s.now }
    ensures { StarryRead s.now (read_so p.old) (read_so p.new) }
{
    let k = s.len() - p.left;
    let used = stars(&s[k..]);
    if used != 0 {
        p.part = star_part(p.part);
        p.left -= used;
    }
}

// How many bytes are left behind the `)` that has to follow an expression, of the `left` bytes behind that.
fn close(s: &[u8], left: usize) -> Result<usize, Halt>
    requires { left ≤ length s.now }
    ensures { (part : Part) → closed_so result part ≡ closed s.now (part_read left part) }
{
    let k = s.len() - left;
    let r = next(&s[k..]);
    match r.token {
        Token::Close => Ok(left - r.used),
        token => Err(Halt {
            fault: fault_of(token),
            left: left - r.start,
        }),
    }
}

// A name of m bytes, placed, with the stars that may follow. Out of line: its room is no part of the frame of `factor`, which stands once
// for each open parenthesis.
#[inline(never)]
fn named(s: &[u8], start: usize, m: usize, used: usize, t: &Table) -> Result<Reading, Halt>
    requires { next_token s.now ≡ record { token = Name m; start = start; used = used } }
    ensures { (depth : ℕ) → FactorRead s.now depth t.now (seen result) }
{
    match place(*t, &s[start..start + m]) {
        Ok(part) => {
            let left = s.len() - used;
            let mut f = Reading { left, part };
            starry(s, &mut f);
            Ok(f)
        }
        Err(fault) => Err(Halt {
            fault,
            left: s.len() - start,
        }),
    }
}

// An expression: a sequence, and another behind each `+`.
#[cycle(expression_factor_sequence)]
fn expression(s: &[u8], depth: usize, t: &Table) -> Result<Reading, Halt>
    ensures { ExpressionRead ends_expression s.now depth t.now (seen result) }
{
    let mut e = sequence(s, depth, t)?;
    while let Some(from) = next_sequence(s, e.left) {
        let q = sequence(&s[from..], depth, &e.part.table)?;
        e = or_read(e, q);
    }
    Ok(e)
}

// A sequence: a factor, and another behind each `;` or at once.
#[cycle(expression_factor_sequence)]
fn sequence(s: &[u8], depth: usize, t: &Table) -> Result<Reading, Halt>
    ensures { SequenceRead ends_sequence s.now depth t.now (seen result) }
{
    let mut q = factor(s, depth, t)?;
    while let Some(from) = next_factor(s, q.left) {
        let f = factor(&s[from..], depth, &q.part.table)?;
        q = then_read(q, f);
    }
    Ok(q)
}

// A factor: a name, or an expression in parentheses, with the stars that may follow.
#[cycle(expression_factor_sequence)]
fn factor(s: &[u8], depth: usize, t: &Table) -> Result<Reading, Halt>
    ensures { FactorRead s.now depth t.now (seen result) }
{
    let n = s.len();
    let r = next(s);
    let start = r.start;
    match r.token {
        Token::Name(m) => named(s, start, m, r.used, t),
        Token::Open => {
            if 16 <= depth {
                return Err(Halt {
                    fault: Fault::OpenParentheses,
                    left: n - start,
                });
            }
            let from = r.used;
            let mut e = expression(&s[from..], depth + 1, t)?;
            let left = close(s, e.left)?;
            e.left = left;
            starry(s, &mut e);
            Ok(e)
        }
        token => Err(Halt {
            fault: fault_of(token),
            left: n - start,
        }),
    }
}

// The whole path, behind which nothing may stand; s is what is left, from place `at` on.
fn conclude(s: &[u8], at: usize, p: Part) -> Result<Table, Refusal>
    requires { at + length s.now ≤ 4096 }
    ensures { made result ≡ concluded s.now at p }
{
    let r = next(s);
    match r.token {
        Token::TextEnd => Ok(complete(p)),
        token => Err(Refusal {
            fault: fault_of(token),
            place: at + r.start,
        }),
    }
}

// The expression of the text, behind which `end` has to stand.
fn end(text: &[u8], e: Reading) -> Result<Table, Refusal>
    requires { (e.left ≤ length text.now) × (length text.now ≤ 4096) }
    ensures { made result ≡ ended text.now (read_so e) }
{
    let k = text.len() - e.left;
    let r = next(&text[k..]);
    match r.token {
        Token::End => {
            let from = k + r.used;
            conclude(&text[from..], from, e.part)
        }
        token => Err(Refusal {
            fault: fault_of(token),
            place: k + r.start,
        }),
    }
}

// The table of a text's path, or why the text is refused.
#[tactic(auto, using(crate::proofs::Wholes::compile_long))]
fn read(text: &[u8]) -> Result<Table, Refusal>
    ensures { made result ≡ compiled text.now }
{
    if 4096 < text.len() {
        return Err(Refusal {
            fault: Fault::LongText,
            place: 4096,
        });
    }
    let r = next(text);
    match r.token {
        Token::Path => {
            let from = r.used;
            match expression(&text[from..], 0, &table_of_zeros()) {
                Ok(e) => end(text, e),
                Err(halt) => Err(Refusal {
                    fault: halt.fault,
                    place: text.len() - halt.left,
                }),
            }
        }
        token => Err(Refusal {
            fault: fault_of(token),
            place: r.start,
        }),
    }
}

// From the text of a path to its table: the only way in.
pub fn compile(text: &[u8]) -> Compiled
    ensures { Compiles text.now result }
{
    match read(text) {
        Ok(table) => Compiled {
            reply: Ok(()),
            table,
        },
        Err(refusal) => Compiled {
            reply: Err(refusal),
            table: table_of_zeros(),
        },
    }
}
