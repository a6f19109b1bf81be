// A line that says something: the one that stands, or one put at the end, if its numbers fit and there is room.

ghost use Rattle.std.specs.Prelude.{◌≡◌, ◌≤◌, IfOk};
ghost use Rattle.rules.specs.Codes.{line};
ghost use Rattle.actions.specs.Actions.{stated};
ghost use Rattle.search.specs.Searches.{Laid};

use crate::fault::JudgeFault;
use crate::standing::Standing;
use actions::Statement;
use lines::LineStore;

pub fn lay<S: LineStore>(
    standing: &Standing,
    store: &mut S,
    statement: Statement,
) -> Result<u16, JudgeFault>
    ensures narrow { IfOk result (λ n. (line (stated statement)).c1 ≤ 65535) }
    ensures cases { Laid (S.most store.old) (S.lines store.old) (S.lines store.new) (stated statement) result }
    ensures room { S.most store.new ≡ S.most store.old }
    ensures kept { S.keeps store.old → S.keeps store.new }
{
    let line = statement.line();
    if let Some(n) = standing.equal(store, line) {
        return Ok(n);
    }
    let line = line.narrow().ok_or(JudgeFault::Number)?;
    let n = store.put(line)?;
    Ok(n)
}
