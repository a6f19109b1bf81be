// 62: the type variable a is below its bound.

ghost use Rattle.judge.specs.Plans.{var_plan};
ghost use Rattle.actions.specs.Actions.{Does, type_shown};

use crate::action::Action;
use crate::goal::Goal;
use crate::shown::TypeLine;
use crate::statement::{Statement, SubRule};
use crate::told::Told;

pub(crate) fn next_var(env: u16, a: u16, shown: Option<TypeLine>, told: Told) -> Action
    ensures { Does result (var_plan env a (type_shown shown)) told }
{
    let Some(TypeLine::Var(k)) = shown else {
        return Action::Fail;
    };
    match told {
        Told::Nothing => Action::Ask(Goal::Env { env }),
        Told::One(_) => Action::Ask(Goal::Bound { env, k }),
        Told::Two(_, _) => Action::Pay,
        Told::Three(p, q, _) => Action::Close(Statement::IsSub {
            rule: SubRule::Var,
            env,
            a,
            b: q.result,
            p: p.line,
            q: q.line,
        }),
        _ => Action::Fail,
    }
}
