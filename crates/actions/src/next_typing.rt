// 43: the type of variable k, which a type binding in front of it raises.

ghost use Rattle.std.specs.Prelude.{Some};
ghost use Rattle.judge.specs.Plans.{typing_plan};
ghost use Rattle.rules.specs.Statements.{with_term'};
ghost use Rattle.actions.specs.Actions.{Does, env_shown};

use crate::action::Action;
use crate::goal::Goal;
use crate::shown::EnvLine;
use crate::statement::Statement;
use crate::told::Told;

fn past_term(env: u16, k: u16, outer: u16, a: u16, told: Told) -> Action
    ensures { Does result (typing_plan env k (Some (with_term' outer a))) told }
{
    match k {
        0 => Action::Fail,
        1 => match told {
            Told::Nothing => Action::Pay,
            Told::One(_) => Action::Close(Statement::Typing {
                env,
                k: 1,
                a,
                p: 0,
                q: 0,
            }),
            _ => Action::Fail,
        },
        _ => match told {
            Told::Nothing => Action::Ask(Goal::Typing {
                env: outer,
                k: k - 1,
            }),
            Told::One(_) => Action::Pay,
            Told::Two(p, _) => Action::Close(Statement::Typing {
                env,
                k,
                a: p.result,
                p: p.line,
                q: 0,
            }),
            _ => Action::Fail,
        },
    }
}

pub(crate) fn next_typing(env: u16, k: u16, shown: Option<EnvLine>, told: Told) -> Action
    ensures { Does result (typing_plan env k (env_shown shown)) told }
{
    match shown {
        None | Some(EnvLine::Empty) => Action::Fail,
        Some(EnvLine::WithTerm(outer, a)) => past_term(env, k, outer, a, told),
        Some(EnvLine::WithType(outer, _)) => match told {
            Told::Nothing => Action::Ask(Goal::Typing { env: outer, k }),
            Told::One(p) => Action::Ask(Goal::Raising { a: p.result, j: 0 }),
            Told::Two(_, _) => Action::Pay,
            Told::Three(p, q, _) => Action::Close(Statement::Typing {
                env,
                k,
                a: q.result,
                p: p.line,
                q: q.line,
            }),
            _ => Action::Fail,
        },
    }
}
