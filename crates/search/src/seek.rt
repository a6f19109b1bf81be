// A goal that is sought: a place, a standing line, and else the loop.

ghost use Rattle.std.specs.Prelude.{◌≡◌, length};
ghost use Rattle.judge.specs.Loop.{search};
ghost use Rattle.actions.specs.Actions.{sought};
ghost use Rattle.search.specs.Outcomes.{Answers, turns};
ghost use Rattle.search.specs.Searches.{limits, state};

use crate::fault::JudgeFault;
use crate::halt::Halt;
use crate::run::{Established, run};
use crate::standing::Standing;
use crate::steps::Steps;
use crate::stop::Stop;
use crate::work::{Wait, Work};
use actions::{Goal, Tree};
use lines::LineStore;
use rules::Quantifier;
use tables::Table;

// What stands in `places` does not matter.
pub fn search<Q: Quantifier, S: LineStore, T: Tree>(
    store: &mut S,
    tree: &T,
    places: &mut [Wait],
    goal: Goal,
    steps: Steps,
) -> Result<Established, Stop>
    ensures cases { Answers (S.lines store.new) steps.most result (search Q.rule (limits steps.most (S.most store.old)) (turns steps.most (length places.old)) (length places.old) (state (S.lines store.old) steps.taken) (sought (T.terms tree.now) goal)) }
    ensures room { S.most store.new ≡ S.most store.old }
    ensures kept { S.keeps store.old → S.keeps store.new }
{
    if !goal.fits() {
        return Err(Stop::before(JudgeFault::Number.into(), steps));
    }
    if places.is_empty() {
        return Err(Stop::before(Halt::GoalsFull, steps));
    }
    let standing = Standing;
    if let Some(found) = standing.serving(store, goal) {
        return match steps.pay() {
            Ok(steps) => Ok(Established { found, steps }),
            Err(halt) => Err(Stop::before(halt, steps)),
        };
    }
    run::<Q, S, T>(
        &standing,
        store,
        tree,
        &mut Table::new(places),
        Work::new(goal),
        steps,
    )
}
