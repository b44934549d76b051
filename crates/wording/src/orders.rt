// What a line of the input asks for: `ask T NAME`, `finish T` or `withdraw T`, or nothing that can be read.
ghost use Rattle.std.specs.Prelude.{◌≡◌, ◌≤◌, length, drop, ◌∷◌};
ghost use Rattle.meaning.specs.Names.{same};
ghost use Rattle.wording.specs.Lines.{before, fields_of};
ghost use Rattle.wording.specs.Orders.{Reads, ReadsAs, number_in, two_read, three_read, ask_word};

use standing::numbers::Terminal;

// What stands between fields, and what ends a line.
pub const SPACE: u8 = b' ';

pub const LF: u8 = b'\n';

// An ask: who asks, and where in the line the name starts.
#[derive(Clone, Copy)]
pub struct Asking {
    pub terminal: Terminal,
    pub from: usize,
}

// The call that a line is.
#[derive(Clone, Copy)]
pub enum Order {
    Ask(Asking),
    Finish(Terminal),
    Withdraw(Terminal),
}

// How many bytes stand before the first that is b.
pub fn bytes_before(s: &[u8], b: u8) -> usize
    ensures { result ≡ before b s.now }
{
    s.iter().position(|x| *x == b).unwrap_or(s.len())
}

// Whether the bytes are those of a word.
#[tactic(auto, using(crate::proofs::Firsts::same_bytes))]
fn is_word(s: &[u8], word: &[u8]) -> bool
    ensures { result ≡ same s.now word.now }
{
    s == word
}

// The number that all of the bytes are, 1 to 3 digits.
fn number_in(s: &[u8]) -> Option<Terminal>
    ensures { result ≡ number_in s.now }
{
    if s.is_empty() || 3 < s.len() {
        return None;
    }
    let mut value: u16 = 0;
    for b in s {
        if !b.is_ascii_digit() {
            return None;
        }
        value = value * 10 + u16::from(*b - b'0');
    }
    Some(Terminal(value))
}

// A finish or a withdrawal: a word, and the number behind it.
fn read_two(word: &[u8], number: Option<Terminal>) -> Option<Order>
    ensures { result ≡ two_read word.now number }
{
    let t = number?;
    if is_word(word, b"finish") {
        return Some(Order::Finish(t));
    }
    if is_word(word, b"withdraw") {
        return Some(Order::Withdraw(t));
    }
    None
}

// An ask by a number, for the name that starts at a place.
fn read_three(number: Option<Terminal>, from: usize) -> Option<Order>
    ensures { result ≡ three_read number from }
{
    let terminal = number?;
    Some(Order::Ask(Asking { terminal, from }))
}

// An ask, whose other fields start at a place of the line.
fn read_ask(line: &[u8], from: usize) -> Option<Order>
    requires { from ≤ length line.now }
    ensures { ReadsAs line.now (ask_word ∷ fields_of (drop from line.now)) result }
{
    let end = from + bytes_before(&line[from..], SPACE);
    if line.len() <= end {
        return None;
    }
    let name = end + 1;
    if line.len() <= name {
        return None;
    }
    if line[name..].contains(&SPACE) {
        return None;
    }
    read_three(number_in(&line[from..end]), name)
}

// What a line asks for.
pub fn read_line(line: &[u8]) -> Option<Order>
    ensures { Reads line.now result }
{
    let end = bytes_before(line, SPACE);
    if line.len() <= end {
        return None;
    }
    let from = end + 1;
    let word = &line[..end];
    if is_word(word, b"ask") {
        return read_ask(line, from);
    }
    read_two(word, number_in(&line[from..]))
}
