// The calls, by value: each tests in number order, and then does its core step; where it is refused nothing changes.
ghost use Rattle.std.specs.Prelude.{◌≡◌};
ghost use Rattle.steps.specs.Values.{runs_in, Decided, first_refusal, ask_known, OpenedBy, AskedBy, FinishedBy, WithdrawnBy};
ghost use Rattle.standing.specs.Soundness.{RecordSound};

use crate::outcomes::{Asked, Handed, Withdrawn};
use crate::replies::CallRefusal;
use crate::steps::{ask_step, finish_step, open_step, withdraw_step};
use standing::entries::Entry;
use standing::numbers::Terminal;
use standing::records::Session;
use standing::searches::Search;
use standing::soundness::record_is_sound;
use table::cells::Table;

// What a call is lent: the record, how many entries the list has, and what looking through those in use has found. The record is not
// copied into it.
#[derive(Clone, Copy)]
pub struct Lent<'a> {
    pub session: &'a Session,
    pub entries: usize,
    pub found: Search,
}

impl Lent<'_> {
    // 8, 9 or 10, whichever comes first.
    #[tactic(auto, unfolding(crate::specs::Values::first_refusal))]
    fn refusal(&self, terminal: Terminal) -> Result<(), CallRefusal>
        ensures { Decided (RecordSound self.now.session.now) (λ sound. first_refusal sound self.now.entries self.now.found terminal) result }
    {
        // Known before 8 is tested, so that one value says it in every reply; no reply depends on the order.
        let sound = record_is_sound(*self.session);
        if self.entries < 64 {
            return Err(CallRefusal::ShortList);
        }
        if !sound || !self.found.fits {
            return Err(CallRefusal::Unsound);
        }
        if 63 < terminal.0 {
            return Err(CallRefusal::NoTerminal);
        }
        Ok(())
    }

    fn runs(&self, terminal: Terminal) -> bool
        ensures { result ≡ runs_in self.now.session.now.running terminal }
    {
        self.session.running == Some(terminal)
    }

    // An ask for an operation that exists.
    #[tactic(auto, unfolding(crate::specs::Values::ask_known))]
    fn ask_known(&self, e: Entry) -> Result<Asked, CallRefusal>
        ensures { result ≡ ask_known self.now.session.now self.now.found e }
    {
        if self.runs(e.terminal) {
            return Err(CallRefusal::Running);
        }
        if self.found.own.is_some() {
            return Err(CallRefusal::Waiting);
        }
        Ok(ask_step(*self.session, e))
    }

    // An ask: 8 to 13, then its step.
    #[tactic(auto, unfolding(crate::specs::Values::ask_value))]
    pub fn asked(&self, terminal: Terminal, name: &[u8]) -> Result<Asked, CallRefusal>
        ensures { AskedBy self.now.session.now self.now.entries self.now.found terminal name.now result }
    {
        self.refusal(terminal)?;
        match self.session.table.find(name) {
            None => Err(CallRefusal::NoOperation),
            Some(operation) => self.ask_known(Entry {
                terminal,
                operation,
            }),
        }
    }

    // A finish: 8, 9, 10, 14, then its step.
    #[tactic(auto, unfolding(crate::specs::Values::finish_value))]
    pub fn finished(&self, terminal: Terminal) -> Result<Handed, CallRefusal>
        ensures { FinishedBy self.now.session.now self.now.entries self.now.found terminal result }
    {
        self.refusal(terminal)?;
        if !self.runs(terminal) {
            return Err(CallRefusal::NotRunning);
        }
        Ok(finish_step(*self.session, self.found.first))
    }

    // A withdrawal: 8, 9, 10, 15, then its step.
    #[tactic(auto, unfolding(crate::specs::Values::withdraw_value))]
    pub fn withdrawn(&self, terminal: Terminal) -> Result<Withdrawn, CallRefusal>
        ensures { WithdrawnBy self.now.session.now self.now.entries self.now.found terminal result }
    {
        self.refusal(terminal)?;
        match self.found.own {
            None => Err(CallRefusal::NotWaiting),
            Some(w) => Ok(withdraw_step(*self.session, w.place)),
        }
    }
}

// An opening over a table: 8, 9, then free, the start set, and nobody waits.
#[tactic(auto, unfolding(crate::specs::Values::open_value))]
pub fn opened(entries: usize, table: Table) -> Result<Session, CallRefusal>
    ensures { OpenedBy entries table result }
{
    // As above.
    let sound = table.is_sound();
    if entries < 64 {
        return Err(CallRefusal::ShortList);
    }
    if !sound {
        return Err(CallRefusal::Unsound);
    }
    Ok(open_step(table))
}
