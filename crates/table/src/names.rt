// The names of a table: an operation's name, and finding an operation by its name.
ghost use Rattle.std.specs.Prelude.{◌≡◌, ◌<◌, get_or, take, []};
ghost use Rattle.meaning.specs.Names.{key};
ghost use Rattle.table.specs.Cells.{spellings, names_of};
ghost use Rattle.table.specs.Following.{found_in};

use crate::cells::Table;
use crate::numbers::Operation;
use text::tokens::same_name;

impl Table {
    // The bytes of name i, in use or not. A length that runs past the last byte ends there.
    fn spelling(&self, i: usize) -> &[u8]
        requires { i < 32 }
        ensures { result.now ≡ get_or (spellings self.now.lengths self.now.bytes) i [] }
    {
        let from = 16 * i;
        let to = (from + usize::from(self.lengths[i])).min(512);
        &self.bytes[from..to]
    }

    // The name of an operation; no bytes, if the table does not have it.
    pub fn name(&self, o: Operation) -> &[u8]
        ensures { result.now ≡ get_or (names_of self.now) o.0 [] }
    {
        let i = usize::from(o.0);
        if self.names.min(32) <= i {
            return &[];
        }
        self.spelling(i)
    }

    // The operation of a name, among the first n there are. Inlined, since the test of the names makes it for each of them, at every call.
    #[inline(always)]
    pub(crate) fn find_among(&self, n: usize, name: &[u8]) -> Option<Operation>
        ensures { result ≡ found_in (take n (spellings self.now.lengths self.now.bytes)) (key name.now) }
    {
        for i in 0..n.min(32) {
            if same_name(self.spelling(i), name) {
                return Some(Operation(i as u8));
            }
        }
        None
    }

    // The operation of a name.
    #[tactic(auto, unfolding(crate::specs::Cells::names_of))]
    pub fn find(&self, name: &[u8]) -> Option<Operation>
        ensures { result ≡ found_in (names_of self.now) (key name.now) }
    {
        self.find_among(self.names, name)
    }
}
