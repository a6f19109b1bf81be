// The loop: turn after turn, never a call inside a call.

ghost use Rattle.std.specs.Prelude.{◌≡◌, ◌<◌, length};
ghost use Rattle.judge.specs.Loop.{loop};
ghost use Rattle.tables.specs.Tables.{held, places};
ghost use Rattle.search.specs.Frames.{search_at};
ghost use Rattle.search.specs.Outcomes.{Answers, turns};
ghost use Rattle.search.specs.Searches.{limits};

use crate::halt::Halt;
use crate::standing::Standing;
use crate::steps::Steps;
use crate::stop::{Stop, placed};
use crate::turn::{Turn, advance};
use crate::work::{Wait, Work};
use actions::{Found, Tree};
use lines::LineStore;
use rules::Quantifier;
use tables::Table;

// A line that says what was sought, and the steps that it took.
#[derive(Clone, Copy)]
pub struct Established {
    pub found: Found,
    pub steps: Steps,
}

// Kept as a `for` over the turns that suffice: that they suffice for a sound listing is shown of the loop, and any listing ends it.
pub(crate) fn run<Q: Quantifier, S: LineStore, T: Tree>(
    standing: &Standing,
    store: &mut S,
    tree: &T,
    waits: &mut Table<Wait>,
    work: Work,
    steps: Steps,
) -> Result<Established, Stop>
    requires place { length (held waits.old) < places waits.old }
    ensures cases { Answers (S.lines store.new) steps.most result (loop Q.rule (limits steps.most (S.most store.old)) (turns steps.most (places waits.old)) (search_at (T.terms tree.now) (places waits.old) (held waits.old) work (S.lines store.old) steps.taken)) }
    ensures room { S.most store.new ≡ S.most store.old }
    ensures kept { S.keeps store.old → S.keeps store.new }
{
    let mut work = work;
    let mut steps = steps;
    let turns = 4 * (2 * u128::from(steps.most) + waits.places() as u128) + 4;
    for turn in 0..turns {
        let next = match advance::<Q, S, T>(standing, store, tree, waits, work, steps) {
            Ok(next) => next,
            Err(halt) => return Err(placed(tree, waits, work, halt, steps.taken)),
        };
        match next {
            Turn::On(next, left) => {
                work = next;
                steps = left;
            }
            Turn::Over(found, steps) => return Ok(Established { found, steps }),
        }
    }
    Err(Stop {
        halt: Halt::GoalsFull,
        byte: None,
        steps: steps.taken,
    })
}
