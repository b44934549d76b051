// The token reader: what stands next in what is left of a text.
ghost use Rattle.std.specs.Prelude.{◌≡◌};
ghost use Rattle.text.specs.Tokens.{span, blank_byte, name_byte, same_name, word_token, sign_token, next_token, is_name, well_formed};

use crate::classes::{Class, Classes};

// What stands next in a text.
#[derive(Clone, Copy)]
pub enum Token {
    Semicolon,
    Plus,
    Star,
    Open,
    Close,
    // The keywords.
    Path,
    End,
    // A name, of so many bytes.
    Name(usize),
    // The text ends.
    TextEnd,
    // A bad byte, or a digit at a token's start.
    Bad,
    // A name of 17 or more bytes.
    Long,
}

impl Token {
    fn is_name(self) -> bool
        ensures { result ≡ is_name self }
    {
        matches!(self, Token::Name(_))
    }
}

// A token, the place of its first byte, and how many bytes are used up with it and the blanks before it.
#[derive(Clone, Copy)]
pub struct Read {
    pub token: Token,
    pub start: usize,
    pub used: usize,
}

// How many blanks the text starts with.
fn blanks(classes: &Classes, s: &[u8]) -> usize
    ensures { result ≡ span blank_byte s.now }
{
    s.iter()
        .position(|b| !classes.class(*b).is_blank())
        .unwrap_or(s.len())
}

// How many letters and digits the text starts with.
fn run(classes: &Classes, s: &[u8]) -> usize
    ensures { result ≡ span name_byte s.now }
{
    s.iter()
        .position(|b| !classes.class(*b).is_in_name())
        .unwrap_or(s.len())
}

// The two names are one: their keys have the same bytes.
#[tactic(auto, using(crate::proofs::Sames::same_pointwise, crate::proofs::Sames::byte_differs_is_false, crate::proofs::Sames::lengths_differ_is_false), unfolding(meaning::specs::Names::key))]
pub fn same_name(m: &[u8], n: &[u8]) -> bool
    ensures { result ≡ same_name m.now n.now }
{
    let k = m.len();
    if k != n.len() {
        return false;
    }
    // Names that differ often start alike, and then their last bytes tell.
    if k != 0 && m[k - 1] != n[k - 1] {
        return false;
    }
    m == n
}

// What a run of letters and digits is: a keyword, a name, or too long.
#[tactic(auto, using(crate::proofs::Ways::word_too_long), unfolding(crate::specs::Tokens::word_token))]
fn word_token(w: &[u8]) -> Token
    ensures { result ≡ word_token w.now }
{
    if same_name(w, b"path") {
        return Token::Path;
    }
    if same_name(w, b"end") {
        return Token::End;
    }
    if 16 < w.len() {
        return Token::Long;
    }
    Token::Name(w.len())
}

// The sign of a class; a class that is none of a sign is a bad byte here, a digit's too.
fn sign_token(c: Class) -> Token
    ensures { result ≡ sign_token c }
{
    match c {
        Class::Semicolon => Token::Semicolon,
        Class::Plus => Token::Plus,
        Class::Asterisk => Token::Star,
        Class::Open => Token::Open,
        Class::Close => Token::Close,
        _ => Token::Bad,
    }
}

// The next token of what is left of a text.
pub fn next(s: &[u8]) -> Read
    ensures { result ≡ next_token s.now }
{
    let classes = Classes::new();
    let start = blanks(&classes, s);
    let rest = &s[start..];
    let Some(first) = rest.first() else {
        return Read {
            token: Token::TextEnd,
            start,
            used: start,
        };
    };
    match classes.class(*first) {
        Class::Letter => {
            let n = run(&classes, rest);
            Read {
                token: word_token(&rest[..n]),
                start,
                used: start + n,
            }
        }
        sign => Read {
            token: sign_token(sign),
            start,
            used: start + 1,
        },
    }
}

// The bytes are a name and nothing else: a letter, and letters and digits to the end, that the reader would take for a name.
pub fn well_formed(n: &[u8]) -> bool
    ensures { result ≡ well_formed n.now }
{
    let classes = Classes::new();
    let Some(first) = n.first() else {
        return false;
    };
    if !classes.class(*first).starts_name() {
        return false;
    }
    if run(&classes, n) != n.len() {
        return false;
    }
    word_token(n).is_name()
}
