// The class of each byte: one table, read by the token reader.
ghost use Rattle.std.specs.Prelude.{◌≡◌};
ghost use Rattle.text.specs.Classes.{class_of, is_blank_class, starts_name, is_in_name, Tabled};

// What a byte is in a path text.
#[derive(Clone, Copy, Debug, PartialEq, Eq)]
pub enum Class {
    Bad,
    Blank,
    Letter,
    Digit,
    Semicolon,
    Plus,
    Asterisk,
    Open,
    Close,
}

impl Class {
    pub(crate) fn is_blank(self) -> bool
        ensures { result ≡ is_blank_class self }
    {
        matches!(self, Class::Blank)
    }

    // A name starts with it.
    pub(crate) fn starts_name(self) -> bool
        ensures { result ≡ starts_name self }
    {
        matches!(self, Class::Letter)
    }

    // A name goes on with it.
    pub(crate) fn is_in_name(self) -> bool
        ensures { result ≡ is_in_name self }
    {
        matches!(self, Class::Letter | Class::Digit)
    }
}

// The classes by one sign each, so that the table is a picture of the bytes.
const X: Class = Class::Bad;

const B: Class = Class::Blank;

const L: Class = Class::Letter;

const D: Class = Class::Digit;

const S: Class = Class::Semicolon;

const P: Class = Class::Plus;

const A: Class = Class::Asterisk;

const O: Class = Class::Open;

const C: Class = Class::Close;

// The class of each byte below 128.
const CLASSES: [Class; 128] = [
    X, X, X, X, X, X, X, X, X, B, B, X, X, B, X, X, X, X, X, X, X, X, X, X, X, X, X, X, X, X, X, X,
    B, X, X, X, X, X, X, X, O, C, A, P, X, X, X, X, D, D, D, D, D, D, D, D, D, D, X, S, X, X, X, X,
    X, L, L, L, L, L, L, L, L, L, L, L, L, L, L, L, L, L, L, L, L, L, L, L, L, L, L, X, X, X, X, X,
    X, L, L, L, L, L, L, L, L, L, L, L, L, L, L, L, L, L, L, L, L, L, L, L, L, L, L, X, X, X, X, X,
];

// The table. It is laid out once for all the bytes that are looked up in it.
#[derive(Drop)]
pub(crate) struct Classes {
    table: [Class; 128],
    ghost tabled: { Tabled table },
}

impl Classes {
    pub(crate) fn new() -> Classes {
        Classes { table: CLASSES }
    }

    // The class of a byte, looked up in the table; all from 128 up are bad.
    pub(crate) fn class(&self, b: u8) -> Class
        ensures { result ≡ class_of b }
    {
        if b < 128 {
            return self.table[usize::from(b)];
        }
        Class::Bad
    }
}

// The class of a byte.
impl From<u8> for Class {
    ghost from_gives = { λ b class. class ≡ class_of b };

    fn from(b: u8) -> Class {
        Classes::new().class(b)
    }
}
