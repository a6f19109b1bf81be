// 42: the bound of variable k, which a type binding in front of it raises.

ghost use Rattle.std.specs.Prelude.{Some};
ghost use Rattle.judge.specs.Plans.{bound_plan};
ghost use Rattle.rules.specs.Statements.{with_type'};
ghost use Rattle.actions.specs.Actions.{Does, env_shown};

use crate::action::Action;
use crate::goal::Goal;
use crate::shown::EnvLine;
use crate::statement::Statement;
use crate::told::Told;

fn past_type(env: u16, k: u16, outer: u16, a: u16, told: Told) -> Action
    ensures { Does result (bound_plan env k (Some (with_type' outer a))) told }
{
    match k {
        0 => Action::Fail,
        1 => match told {
            Told::Nothing => Action::Ask(Goal::Raising { a, j: 0 }),
            Told::One(_) => Action::Pay,
            Told::Two(q, _) => Action::Close(Statement::Bound {
                env,
                k: 1,
                b: q.result,
                p: 0,
                q: q.line,
            }),
            _ => Action::Fail,
        },
        _ => match told {
            Told::Nothing => Action::Ask(Goal::Bound {
                env: outer,
                k: k - 1,
            }),
            Told::One(p) => Action::Ask(Goal::Raising { a: p.result, j: 0 }),
            Told::Two(_, _) => Action::Pay,
            Told::Three(p, q, _) => Action::Close(Statement::Bound {
                env,
                k,
                b: q.result,
                p: p.line,
                q: q.line,
            }),
            _ => Action::Fail,
        },
    }
}

pub(crate) fn next_bound(env: u16, k: u16, shown: Option<EnvLine>, told: Told) -> Action
    ensures { Does result (bound_plan env k (env_shown shown)) told }
{
    match shown {
        None | Some(EnvLine::Empty) => Action::Fail,
        Some(EnvLine::WithTerm(outer, _)) => match told {
            Told::Nothing => Action::Ask(Goal::Bound { env: outer, k }),
            Told::One(_) => Action::Pay,
            Told::Two(p, _) => Action::Close(Statement::Bound {
                env,
                k,
                b: p.result,
                p: p.line,
                q: 0,
            }),
            _ => Action::Fail,
        },
        Some(EnvLine::WithType(outer, a)) => past_type(env, k, outer, a, told),
    }
}
