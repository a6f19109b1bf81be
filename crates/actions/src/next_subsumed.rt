// 70: the term a has the type b, from the lines p and q.

ghost use Rattle.judge.specs.Plans.{subsumed_plan};
ghost use Rattle.actions.specs.Actions.{Does};

use crate::action::Action;
use crate::statement::{HasRule, Statement};
use crate::told::Told;

pub(crate) fn next_subsumed(env: u16, a: u16, b: u16, p: u16, q: u16, told: Told) -> Action
    ensures { Does result (subsumed_plan env a b p q) told }
{
    match told {
        Told::Nothing => Action::Pay,
        Told::One(_) => Action::Close(Statement::Has {
            rule: HasRule::Subsumed,
            env,
            term: a,
            a: b,
            p,
            q,
            r: 0,
        }),
        _ => Action::Fail,
    }
}
