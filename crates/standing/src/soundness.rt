// Whether a record is sound: "A record and list are sound if ..", the clauses on the record alone.
ghost use Rattle.std.specs.Prelude.{◌≡◌, true, ◌↔◌};
ghost use Rattle.standing.specs.Searching.{running_fits};
ghost use Rattle.standing.specs.Soundness.{RecordSound};

use crate::numbers::Terminal;
use crate::records::Session;
use crate::searches::operations_in;
use table::soundness::fits;

// While running, the terminal is below 64 and the set has one operation's positions only.
fn running_fits(running: Option<Terminal>, met: u64) -> bool
    ensures { result ≡ running_fits running met }
{
    match running {
        None => true,
        Some(t) => t.0 < 64 && met.is_power_of_two(),
    }
}

// The record is sound.
pub fn record_is_sound(session: Session) -> bool
    ensures { (result ≡ true) ↔ RecordSound session }
{
    let table = session.table;
    table.is_sound()
        && fits(session.set, table.positions)
        && running_fits(session.running, operations_in(&table, session.set))
        && session.waiting <= 64
}
