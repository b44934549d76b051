// What the calls reply: what was asked, or the refusal (document 01, "Numbers of refusal", 8 to 15).
ghost use Rattle.std.specs.Prelude.{◌≡◌};
ghost use Rattle.steps.specs.Answers.{number_of};

use standing::numbers::Terminal;
use table::numbers::Operation;

// Why a call is refused, under the paper's number of it.
#[derive(Clone, Copy, Debug, PartialEq, Eq)]
pub enum CallRefusal {
    // a list of fewer than 64 entries
    ShortList = 8,
    // an unsound record or list; for an opening an unsound table
    Unsound = 9,
    // a terminal above 63
    NoTerminal = 10,
    // no such operation
    NoOperation = 11,
    // an ask by the running terminal
    Running = 12,
    // an ask by a waiting terminal
    Waiting = 13,
    // a finish by a terminal that isn't running
    NotRunning = 14,
    // a withdrawal by a terminal that isn't waiting
    NotWaiting = 15,
}

impl CallRefusal {
    // The number of the refusal.
    pub fn number(self) -> u8
        ensures { result ≡ number_of self }
    {
        self as u8
    }
}

// An ask that is served: granted, or delayed, with the number of entries ahead.
#[derive(Clone, Copy)]
pub enum Ask {
    Granted,
    Delayed(usize),
}

// Who runs now, and what.
#[derive(Clone, Copy)]
pub struct Grant {
    pub terminal: Terminal,
    pub operation: Operation,
}

// Whom a finish hands the line to.
#[derive(Clone, Copy)]
pub enum Next {
    Granted(Grant),
    Nobody,
}

// The number of entries examined, beside it who is granted what, if any.
#[derive(Clone, Copy)]
pub struct Finished {
    pub examined: usize,
    pub next: Next,
}

// What each call replies. A withdrawal that is served replies the place that the entry had.
pub type OpenReply = Result<(), CallRefusal>;

pub type AskReply = Result<Ask, CallRefusal>;

pub type FinishReply = Result<Finished, CallRefusal>;

pub type WithdrawReply = Result<usize, CallRefusal>;
