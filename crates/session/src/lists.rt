// The waiting list, lent by the caller: few thin functions, each of which leaves every place that it does not name.
ghost use Rattle.std.specs.Prelude.{◌≡◌, take, set};
ghost use Rattle.standing.specs.Lists.{taken_out, blanked};
ghost use Rattle.standing.specs.Searching.{looked};

use standing::entries::{Entry, blank_entry};
use standing::searches::{Search, examine};
use std::mem;

// The first n entries, examined one after the other; fewer if there are fewer.
pub fn find(list: &[Entry], n: usize, search: Search) -> Search
    ensures { result ≡ looked 0 search (take n list.now) }
{
    let used = &list[..n.min(list.len())];
    let mut found = search;
    for (i, entry) in used.iter().enumerate() {
        found = examine(found, *entry, i);
    }
    found
}

// The entry is put at a place; at none that the list has not.
pub fn append(list: &mut [Entry], at: usize, e: Entry)
    ensures { list.new ≡ set list.old at e }
{
    if at < list.len() {
        list[at] = e;
    }
}

// Of the first n entries the one at a place is taken out: from the back, each place gets the entry behind it, once, and the last place
// becomes blank. The entry that leaves is then in hand. A library's move of the whole part would want C's `memmove`.
pub fn take_out(list: &mut [Entry], n: usize, at: usize)
    ensures { list.new ≡ taken_out n at list.old }
{
    let mut moving = blank_entry();
    for i in (at..n.min(list.len())).rev() {
        moving = mem::replace(&mut list[i], moving);
    }
}

// The first n entries become blank.
pub fn blank(list: &mut [Entry], n: usize)
    ensures { list.new ≡ blanked n list.old }
{
    let end = n.min(list.len());
    list[..end].fill(blank_entry());
}
