// What a call replies to C: one struct for all five, by document 01's number and values.
ghost use Rattle.std.specs.Prelude.{◌≡◌};
ghost use Rattle.steps.specs.Answers.{number_of, open_answer, ask_answer, finish_answer, withdraw_answer};
ghost use Rattle.steps.specs.Answers.Answer.{refused};
ghost use Rattle.compiler.specs.Compiling.{answer};
ghost use Rattle.wabbitsen.specs.Exporting.{told, reply_of, compile_reply_of};

use compiler::replies::Reply as CompileReply;
use standing::numbers::Terminal;
use steps::replies::{
    Ask, AskReply, CallRefusal, FinishReply, Finished, Next, OpenReply, WithdrawReply,
};
use table::numbers::Operation;

// `number` is the number of refusal, or 0 where the call is served. `value` is the place of a refused text, the entries ahead of a
// delayed ask, the entries that a finish examined or the place that a withdrawn entry had. `granted` is 1 if somebody is granted: by
// an ask who asked, by a finish `terminal` and `operation`. Every cell that says nothing is 0.
#[repr(C)]
#[derive(Clone, Copy)]
pub struct Reply {
    pub value: usize,
    pub terminal: Terminal,
    pub operation: Operation,
    pub number: u8,
    pub granted: u8,
}

// A reply that names nobody.
fn telling(value: usize, number: u8, granted: u8) -> Reply
    ensures { result ≡ told value number granted }
{
    Reply {
        value,
        terminal: Terminal(0),
        operation: Operation(0),
        number,
        granted,
    }
}

// C's reply, of each of the five.
impl From<CompileReply> for Reply {
    ghost from_gives = { λ reply told. told ≡ compile_reply_of (answer reply) };

    fn from(reply: CompileReply) -> Reply {
        match reply {
            Ok(()) => telling(0, 0, 0),
            Err(refusal) => telling(refusal.place, refusal.fault.number(), 0),
        }
    }
}

// Of a call that is refused.
impl From<CallRefusal> for Reply {
    ghost from_gives = { λ refusal reply. reply ≡ reply_of (refused (number_of refusal)) };

    fn from(refusal: CallRefusal) -> Reply {
        telling(0, refusal.number(), 0)
    }
}

impl From<OpenReply> for Reply {
    ghost from_gives = { λ reply told. told ≡ reply_of (open_answer reply) };

    fn from(reply: OpenReply) -> Reply {
        match reply {
            Ok(()) => telling(0, 0, 0),
            Err(refusal) => refusal.into(),
        }
    }
}

impl From<AskReply> for Reply {
    ghost from_gives = { λ reply told. told ≡ reply_of (ask_answer reply) };

    fn from(reply: AskReply) -> Reply {
        match reply {
            Ok(Ask::Granted) => telling(0, 0, 1),
            Ok(Ask::Delayed(ahead)) => telling(ahead, 0, 0),
            Err(refusal) => refusal.into(),
        }
    }
}

impl From<FinishReply> for Reply {
    ghost from_gives = { λ reply told. told ≡ reply_of (finish_answer reply) };

    fn from(reply: FinishReply) -> Reply {
        match reply {
            Ok(Finished { examined, next }) => match next {
                Next::Granted(grant) => Reply {
                    value: examined,
                    terminal: grant.terminal,
                    operation: grant.operation,
                    number: 0,
                    granted: 1,
                },
                Next::Nobody => telling(examined, 0, 0),
            },
            Err(refusal) => refusal.into(),
        }
    }
}

impl From<WithdrawReply> for Reply {
    ghost from_gives = { λ reply told. told ≡ reply_of (withdraw_answer reply) };

    fn from(reply: WithdrawReply) -> Reply {
        match reply {
            Ok(place) => telling(place, 0, 0),
            Err(refusal) => refusal.into(),
        }
    }
}
