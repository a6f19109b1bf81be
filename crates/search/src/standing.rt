// The lines that stand, by what they say. Kept as a type of its own: an index on the heap can answer in its place.

ghost use Rattle.std.specs.Prelude.{◌≡◌, ◌≤◌, IfSome};

use actions::{Found, Goal, Wide, answer};
use lines::LineStore;

#[derive(Clone, Copy, Default)]
pub struct Standing;

impl Standing {
    ghost use Rattle.judge.specs.Seeking.{standing, equal_at};
    ghost use Rattle.actions.specs.Actions.{Terms, sought};
    ghost use Rattle.actions.specs.Wides.{widened};
    ghost use Rattle.search.specs.Searches.{found};

    // The first line that serves the goal.
    pub(crate) fn serving<S: LineStore>(&self, store: &S, goal: Goal) -> Option<Found>
        ensures { (t : Terms) → found result ≡ standing (sought t goal) 1 (S.lines store.now) }
    {
        for n in 0..store.count() {
            let line = store.get(n + 1).unwrap_or_default();
            if let Some(result) = answer(goal, line) {
                return Some(Found {
                    line: n + 1,
                    result,
                });
            }
        }
        None
    }

    // The number of the first line that is this one.
    pub(crate) fn equal<S: LineStore>(&self, store: &S, line: Wide) -> Option<u16>
        ensures first { result ≡ equal_at (widened line) 1 (S.lines store.now) }
        ensures narrow { IfSome result (λ n. line.c1 ≤ 65535) }
    {
        for n in 0..store.count() {
            if line.is(store.get(n + 1).unwrap_or_default()) {
                return Some(n + 1);
            }
        }
        None
    }
}
