// A record and a list of 64 entries held by value, and the calls on them: what a program keeps that lends nothing itself.
ghost use Rattle.std.specs.Prelude.{◌≡◌};
ghost use Rattle.lines.specs.Held.{unopened};
ghost use Rattle.steps.specs.Calling.{Opens, Asks, Finishes, Withdraws};

use session::calls;
use standing::entries::{Entry, blank_entry};
use standing::numbers::Terminal;
use standing::records::Session;
use steps::replies::{AskReply, FinishReply, OpenReply, WithdrawReply};
use table::cells::{Table, table_of_zeros};

#[derive(Clone, Copy)]
pub struct Line {
    pub session: Session,
    pub list: [Entry; 64],
}

impl Line {
    // Nothing is opened, and nobody waits.
    pub fn unopened() -> Line
        ensures { result ≡ unopened }
    {
        let session = Session {
            table: table_of_zeros(),
            set: 0,
            running: None,
            waiting: 0,
        };
        Line {
            session,
            list: [blank_entry(); 64],
        }
    }

    pub fn open(&mut self, table: Table) -> OpenReply
        ensures { Opens self.old.session self.old.list table result self.new.session self.new.list }
    {
        calls::open(&mut self.session, &mut self.list, table)
    }

    pub fn ask(&mut self, terminal: Terminal, name: &[u8]) -> AskReply
        ensures { Asks self.old.session self.old.list terminal name.now result self.new.session self.new.list }
    {
        calls::ask(&mut self.session, &mut self.list, terminal, name)
    }

    pub fn finish(&mut self, terminal: Terminal) -> FinishReply
        ensures { Finishes self.old.session self.old.list terminal result self.new.session self.new.list }
    {
        calls::finish(&mut self.session, &mut self.list, terminal)
    }

    pub fn withdraw(&mut self, terminal: Terminal) -> WithdrawReply
        ensures { Withdraws self.old.session self.old.list terminal result self.new.session self.new.list }
    {
        calls::withdraw(&mut self.session, &mut self.list, terminal)
    }
}
