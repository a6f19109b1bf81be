// Cause 4: whether an equal line stands earlier. An index on the heap tells; where memory is refused, the lines are read again, with the same answer.

ghost use Rattle.std.specs.Prelude.{◌≡◌, [], ◌∷◌, ◌++◌, false, ◌↔◌, IsTrue};
ghost use Rattle.std.specs.List.{Contains};
ghost use Rattle.checker.specs.Seen.{Holds};

use crate::index::Index;
use crate::prefix::Prefix;
use lines::{Line, LineStore};
use std::alloc::Global;

// The lines before a line, or None where memory was refused.
#[derive(Drop)]
pub(crate) struct Seen {
    index: Option<Index>,
}

impl Seen {
    // No lines, with room for so many.
    pub(crate) fn new(heap: Global, room: u16) -> Seen
        ensures { Holds result [] }
    {
        Seen {
            index: Index::new(heap, room).ok(),
        }
    }

    // Whether l stands among the lines before it. From now on it is one of those seen.
    // Kept as clauses, here and for the test of a line: Holds is about two values, and breaks where a line is repeated.
    pub(crate) fn repeats<S: LineStore>(&mut self, before: &Prefix<S>, l: Line) -> bool
        requires { Holds self.old before.now }
        ensures repeats { IsTrue result ↔ Contains before.now l }
        ensures seen { result ≡ false → Holds self.new (before.now ++ l ∷ []) }
    {
        let Some(index) = &mut self.index else {
            return before.contains(l);
        };
        let slot = index.slot(l);
        if index.holds(before, slot, l) {
            return true;
        }
        match before.next() {
            Some(number) if index.add(slot, number, l).is_ok() => {}
            _ => self.index = None,
        }
        false
    }
}
