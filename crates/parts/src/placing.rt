// A name as written: one position more, of its operation.
ghost use Rattle.std.specs.Prelude.{◌≡◌, ◌≤◌, ◌<◌, length};
ghost use Rattle.parts.specs.Parts.{positioned, named, placed};

use crate::joining::Part;
use table::cells::Table;
use table::numbers::{Operation, Position};
use table::sets::set_of;
use text::faults::Fault;

// One name more, in the next 16 bytes.
fn with_name(t: Table, name: &[u8]) -> Table
    requires { (t.names < 32) × (length name.now ≤ 16) }
    ensures { result ≡ named t name.now }
{
    let i = t.names;
    let from = 16 * i;
    let mut out = t;
    out.names = i + 1;
    out.lengths[i] = name.len() as u8;
    out.bytes[from..from + name.len()].copy_from_slice(name);
    out
}

// One position more, of the operation o: its own first and last.
fn with_position(t: Table, o: Operation) -> Part
    requires { t.positions < 64 }
    ensures { result ≡ positioned t o.0 }
{
    let p = t.positions;
    let mut out = t;
    out.operations[p] = o;
    out.positions = p + 1;
    let set = set_of(Position((p + 1) as u8));
    Part {
        empty: false,
        first: set,
        last: set,
        table: out,
    }
}

// A name placed behind all that was read, unless it passes a limit: 17 bytes, the 65th position, the 33rd distinct name.
#[tactic(auto, using(crate::proofs::PlacePaths::placed_long, crate::proofs::PlacePaths::placed_full, crate::proofs::PlacePaths::placed_known, crate::proofs::PlacePaths::placed_one_too_many, crate::proofs::PlacePaths::placed_new))]
pub fn place(t: Table, name: &[u8]) -> Result<Part, Fault>
    ensures { result ≡ placed t name.now }
{
    if 16 < name.len() {
        return Err(Fault::LongName);
    }
    if 64 <= t.positions {
        return Err(Fault::Positions);
    }
    if let Some(o) = t.find(name) {
        return Ok(with_position(t, o));
    }
    if 32 <= t.names {
        return Err(Fault::Names);
    }
    Ok(with_position(with_name(t, name), Operation(t.names as u8)))
}
