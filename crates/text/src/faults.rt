// What is wrong with a text, where it is refused.
ghost use Rattle.std.specs.Prelude.{◌≡◌};
ghost use Rattle.text.specs.Faults.{number_of};

// The rows of document 01, "Numbers of refusal", 1 to 7.
#[derive(Clone, Copy, Debug, PartialEq, Eq)]
pub enum Fault {
    // A text above 4,096 bytes.
    LongText = 1,
    // A bad byte, or a digit at a token's start.
    BadByte = 2,
    // A name of 17 or more bytes.
    LongName = 3,
    // No text of the grammar goes on so, or the text stops short.
    Misplaced = 4,
    // A `(` that would make 17 open at once.
    OpenParentheses = 5,
    // The 65th position.
    Positions = 6,
    // The 33rd distinct name.
    Names = 7,
}

impl Fault {
    // The number by which it is refused.
    pub fn number(self) -> u8
        ensures { result ≡ number_of self }
    {
        self as u8
    }
}
