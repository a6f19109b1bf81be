// 50: an environment is one by its last binding's 51.

ghost use Rattle.judge.specs.Plans.{env_plan};
ghost use Rattle.actions.specs.Actions.{Does, env_shown};

use crate::action::Action;
use crate::goal::Goal;
use crate::shown::EnvLine;
use crate::statement::Statement;
use crate::told::Told;

pub(crate) fn next_env(env: u16, shown: Option<EnvLine>, told: Told) -> Action
    ensures { Does result (env_plan env (env_shown shown)) told }
{
    match shown {
        None => Action::Fail,
        Some(EnvLine::Empty) => match told {
            Told::Nothing => Action::Pay,
            Told::One(_) => Action::Close(Statement::IsEnv { env, p: 0 }),
            _ => Action::Fail,
        },
        Some(EnvLine::WithTerm(outer, a) | EnvLine::WithType(outer, a)) => match told {
            Told::Nothing => Action::Ask(Goal::Type { env: outer, a }),
            Told::One(_) => Action::Pay,
            Told::Two(p, _) => Action::Close(Statement::IsEnv { env, p: p.line }),
            _ => Action::Fail,
        },
    }
}
