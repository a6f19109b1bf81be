// One turn: an action of the goal that is worked on. No code is known here.

ghost use Rattle.std.specs.Prelude.{◌≡◌, ℕ, ◌<◌, List, length};
ghost use Rattle.judge.specs.Loop.{to_ask, to_lay, to_close, to_pay, turn};
ghost use Rattle.actions.specs.Actions.{Spare, Terms, sought, stated};
ghost use Rattle.lines.specs.declared.line.Line.{Line};
ghost use Rattle.tables.specs.Tables.{held, places};
ghost use Rattle.search.specs.Frames.{search_at};
ghost use Rattle.search.specs.Searches.{limits};
ghost use Rattle.search.specs.Goes.{Went, acts};

use crate::fault::JudgeFault;
use crate::halt::Halt;
use crate::laid::lay;
use crate::standing::Standing;
use crate::steps::Steps;
use crate::work::{Wait, Work};
use actions::{Action, Found, Goal, Statement, Tree, next_action};
use lines::LineStore;
use rules::Quantifier;
use tables::Table;

// How the search goes on.
#[derive(Clone, Copy)]
pub(crate) enum Turn {
    // with a goal to be worked on
    On(Work, Steps),
    // what was sought is established
    Over(Found, Steps),
}

// A premise: a standing line that serves is used for a step, and else its goal is worked on, while this one waits.
fn ask<S: LineStore>(
    standing: &Standing,
    store: &S,
    waits: &mut Table<Wait>,
    work: Work,
    goal: Goal,
    steps: Steps,
) -> Result<Turn, Halt>
    requires spare { Spare work.told }
    requires place { length (held waits.old) < places waits.old }
    ensures cases { (t : Terms) → Went t (places waits.old) (held waits.old) (held waits.new) work (S.lines store.now) steps (acts t steps (S.most store.now) (places waits.old) (held waits.old) work (S.lines store.now) (to_ask (sought t goal))) result }
    ensures places { places waits.new ≡ places waits.old }
{
    if !goal.fits() {
        return Err(JudgeFault::Number.into());
    }
    if waits.count() + 1 >= waits.places() {
        return Err(Halt::GoalsFull);
    }
    if let Some(found) = standing.serving(store, goal) {
        let steps = steps.pay()?;
        return Ok(Turn::On(work.and(found), steps));
    }
    waits.push(Wait { work }).map_err(|_| Halt::GoalsFull)?;
    Ok(Turn::On(Work::new(goal), steps))
}

// A line that is laid: the goal goes on with its number.
fn go_on<S: LineStore>(
    standing: &Standing,
    store: &mut S,
    waits: &Table<Wait>,
    work: Work,
    statement: Statement,
    steps: Steps,
) -> Result<Turn, Halt>
    requires spare { Spare work.told }
    requires place { length (held waits.now) < places waits.now }
    ensures cases { (t : Terms) → Went t (places waits.now) (held waits.now) (held waits.now) work (S.lines store.new) steps (acts t steps (S.most store.old) (places waits.now) (held waits.now) work (S.lines store.old) (to_lay (stated statement))) result }
    ensures room { S.most store.new ≡ S.most store.old }
    ensures kept { S.keeps store.old → S.keeps store.new }
{
    let line = lay(standing, store, statement)?;
    Ok(Turn::On(work.and(Found { line, result: 0 }), steps))
}

// A step.
fn step(waits: &Table<Wait>, work: Work, steps: Steps) -> Result<Turn, Halt>
    requires spare { Spare work.told }
    requires place { length (held waits.now) < places waits.now }
    ensures { (t : Terms) (room : ℕ) (lines : List Line) → Went t (places waits.now) (held waits.now) (held waits.now) work lines steps (acts t steps room (places waits.now) (held waits.now) work lines to_pay) result }
{
    let steps = steps.pay()?;
    Ok(Turn::On(work.and(Found { line: 0, result: 0 }), steps))
}

// The goal's own line: the one that waits for it goes on, and its place is free again.
fn close<S: LineStore>(
    standing: &Standing,
    store: &mut S,
    waits: &mut Table<Wait>,
    work: Work,
    statement: Statement,
    steps: Steps,
) -> Result<Turn, Halt>
    requires place { length (held waits.old) < places waits.old }
    ensures cases { (t : Terms) → Went t (places waits.old) (held waits.old) (held waits.new) work (S.lines store.new) steps (acts t steps (S.most store.old) (places waits.old) (held waits.old) work (S.lines store.old) (to_close (stated statement))) result }
    ensures places { places waits.new ≡ places waits.old }
    ensures room { S.most store.new ≡ S.most store.old }
    ensures kept { S.keeps store.old → S.keeps store.new }
{
    let line = lay(standing, store, statement)?;
    let found = Found {
        line,
        result: statement.result(),
    };
    match waits.pop() {
        None => Ok(Turn::Over(found, steps)),
        Some(wait) => Ok(Turn::On(wait.work.and(found), steps)),
    }
}

pub(crate) fn advance<Q: Quantifier, S: LineStore, T: Tree>(
    standing: &Standing,
    store: &mut S,
    tree: &T,
    waits: &mut Table<Wait>,
    work: Work,
    steps: Steps,
) -> Result<Turn, Halt>
    requires place { length (held waits.old) < places waits.old }
    ensures cases { Went (T.terms tree.now) (places waits.old) (held waits.old) (held waits.new) work (S.lines store.new) steps (turn Q.rule (limits steps.most (S.most store.old)) (search_at (T.terms tree.now) (places waits.old) (held waits.old) work (S.lines store.old) steps.taken)) result }
    ensures places { places waits.new ≡ places waits.old }
    ensures room { S.most store.new ≡ S.most store.old }
    ensures kept { S.keeps store.old → S.keeps store.new }
{
    match next_action::<Q, S, T>(store, tree, work.goal, work.told) {
        Action::Ask(goal) => ask(standing, store, waits, work, goal, steps),
        Action::Lay(statement) => go_on(standing, store, waits, work, statement, steps),
        Action::Become(exposing) => Ok(Turn::On(Work::new(Goal::Exposing(exposing)), steps)),
        Action::Pay => step(waits, work, steps),
        Action::Close(statement) => close(standing, store, waits, work, statement, steps),
        Action::Fail => Err(Halt::Fails),
    }
}
