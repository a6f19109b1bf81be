// 40: the variables of a above j are raised.

ghost use Rattle.std.specs.Prelude.{◌≤◌, Some};
ghost use Rattle.judge.specs.Plans.{raising_plan};
ghost use Rattle.rules.specs.Statements.{top', var', arrow', all', rec'};
ghost use Rattle.actions.specs.Actions.{Does, type_shown};

use crate::action::Action;
use crate::goal::Goal;
use crate::shown::TypeLine;
use crate::statement::Statement;
use crate::told::Told;

fn raise_top(a: u16, j: u32, told: Told) -> Action
    ensures { Does result (raising_plan a j (Some top')) told }
{
    match told {
        Told::Nothing => Action::Pay,
        Told::One(_) => Action::Close(Statement::Raising {
            a,
            j,
            c: a,
            p: 0,
            q: 0,
        }),
        _ => Action::Fail,
    }
}

fn raise_var(a: u16, j: u32, k: u16, told: Told) -> Action
    ensures { Does result (raising_plan a j (Some (var' k))) told }
{
    if u32::from(k) <= j {
        return raise_top(a, j, told);
    }
    match told {
        Told::Nothing => Action::Pay,
        Told::One(_) => Action::Lay(Statement::TypeVar {
            k: u64::from(k) + 1,
        }),
        Told::Two(_, c) => Action::Close(Statement::Raising {
            a,
            j,
            c: c.line,
            p: 0,
            q: 0,
        }),
        _ => Action::Fail,
    }
}

fn raise_arrow(a: u16, j: u32, left: u16, right: u16, told: Told) -> Action
    ensures { Does result (raising_plan a j (Some (arrow' left right))) told }
{
    match told {
        Told::Nothing => Action::Ask(Goal::Raising { a: left, j }),
        Told::One(_) => Action::Ask(Goal::Raising { a: right, j }),
        Told::Two(_, _) => Action::Pay,
        Told::Three(p, q, _) => Action::Lay(Statement::Arrow {
            a: p.result,
            b: q.result,
        }),
        Told::Four(p, q, _, c) => Action::Close(Statement::Raising {
            a,
            j,
            c: c.line,
            p: p.line,
            q: q.line,
        }),
        Told::Five(..) => Action::Fail,
    }
}

fn raise_all(a: u16, j: u32, bound: u16, body: u16, told: Told) -> Action
    requires { j ≤ 65535 }
    ensures { Does result (raising_plan a j (Some (all' bound body))) told }
{
    match told {
        Told::Nothing => Action::Ask(Goal::Raising { a: bound, j }),
        Told::One(_) => Action::Ask(Goal::Raising { a: body, j: j + 1 }),
        Told::Two(_, _) => Action::Pay,
        Told::Three(p, q, _) => Action::Lay(Statement::All {
            a: p.result,
            b: q.result,
        }),
        Told::Four(p, q, _, c) => Action::Close(Statement::Raising {
            a,
            j,
            c: c.line,
            p: p.line,
            q: q.line,
        }),
        Told::Five(..) => Action::Fail,
    }
}

fn raise_rec(a: u16, j: u32, body: u16, told: Told) -> Action
    requires { j ≤ 65535 }
    ensures { Does result (raising_plan a j (Some (rec' body))) told }
{
    match told {
        Told::Nothing => Action::Ask(Goal::Raising { a: body, j: j + 1 }),
        Told::One(_) => Action::Pay,
        Told::Two(p, _) => Action::Lay(Statement::Rec { b: p.result }),
        Told::Three(p, _, c) => Action::Close(Statement::Raising {
            a,
            j,
            c: c.line,
            p: p.line,
            q: 0,
        }),
        _ => Action::Fail,
    }
}

pub(crate) fn next_raise(a: u16, j: u32, shown: Option<TypeLine>, told: Told) -> Action
    requires { j ≤ 65535 }
    ensures { Does result (raising_plan a j (type_shown shown)) told }
{
    match shown {
        None => Action::Fail,
        Some(TypeLine::Top) => raise_top(a, j, told),
        Some(TypeLine::Var(k)) => raise_var(a, j, k, told),
        Some(TypeLine::Arrow(left, right)) => raise_arrow(a, j, left, right, told),
        Some(TypeLine::All(bound, body)) => raise_all(a, j, bound, body, told),
        Some(TypeLine::Rec(body)) => raise_rec(a, j, body, told),
    }
}
