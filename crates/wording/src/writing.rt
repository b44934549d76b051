// Bytes are put into a lent output.
ghost use Rattle.std.specs.Prelude.{◌∷◌, [], ◌≡◌, ◌<◌};
ghost use Rattle.wording.specs.Writing.{Writes, decimal, digit_of};

// A lent output, and the place where it goes on. Each method puts bytes from that place on, as far as the output goes, and leaves the place
// behind them, the output's end at most.
#[derive(Drop)]
pub struct Output<'a> {
    pub bytes: &'a mut [u8],
    pub at: usize,
}

// The sign of a digit.
fn digit(n: u64) -> u8
    requires { n < 10 }
    ensures { result ≡ digit_of n }
{
    b'0' + n as u8
}

impl Output<'_> {
    // One byte.
    pub fn put(&mut self, b: u8)
        ensures { Writes self.old (b ∷ []) self.new }
    {
        if self.at < self.bytes.len() {
            self.bytes[self.at] = b;
            self.at += 1;
        } else {
            self.at = self.bytes.len();
        }
    }

    // All of some bytes, one after the other: to copy them at once would want C's `memmove`.
    pub fn put_bytes(&mut self, s: &[u8])
        ensures { Writes self.old s.now self.new }
    {
        self.at = self.at.min(self.bytes.len());
        for b in s {
            self.put(*b);
        }
    }

    // A number, without leading zeros: all but its last digit first.
    #[tactic(auto, using(crate::proofs::Putting::one_digit_printed))]
    pub fn put_number(&mut self, n: u64)
        ensures { Writes self.old (decimal n) self.new }
    {
        if n < 10 {
            return self.put(digit(n));
        }
        self.put_number(n / 10);
        self.put(digit(n % 10));
    }
}
