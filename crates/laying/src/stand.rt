// A node that puts one line.

ghost use Rattle.std.specs.Prelude.{◌≡◌};
ghost use Rattle.actions.specs.Actions.{Terms, stated};
ghost use Rattle.actions.specs.Terms.{formed};
ghost use Rattle.judge.specs.Goals.{lay as laid};
ghost use Rattle.laying.specs.Goes.{Goes};

use actions::{Form, Statement, Term};
use lines::LineStore;
use search::{JudgeFault, Standing, lay};

// What stands for a node, and the environment behind it.
#[derive(Clone, Copy)]
pub(crate) struct Laid {
    pub(crate) env: u16,
    pub(crate) term: Term,
}

pub(crate) fn stand<S: LineStore>(
    standing: &Standing,
    store: &mut S,
    env: u16,
    statement: Statement,
    byte: u16,
    form: Form,
) -> Result<Laid, JudgeFault>
    ensures cases { (t : Terms) → Goes (S.most store.old) (S.lines store.old) (S.lines store.new) (λ k. laid (stated statement) (λ n. k env (formed t byte n form))) t result }
    ensures room { S.most store.new ≡ S.most store.old }
    ensures kept { S.keeps store.old → S.keeps store.new }
{
    let line = lay(standing, store, statement)?;
    Ok(Laid {
        env,
        term: Term { byte, line, form },
    })
}
