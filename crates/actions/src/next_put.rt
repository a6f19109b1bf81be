// 41: a is put for variable j of b; under a binder a is raised before the part.

ghost use Rattle.std.specs.Prelude.{◌≤◌, Some};
ghost use Rattle.judge.specs.Plans.{putting_plan};
ghost use Rattle.rules.specs.Statements.{top', var', arrow', all', rec'};
ghost use Rattle.actions.specs.Actions.{Does, type_shown};

use crate::action::Action;
use crate::goal::Goal;
use crate::shown::TypeLine;
use crate::statement::Statement;
use crate::told::Told;

fn put_top(b: u16, j: u32, a: u16, told: Told) -> Action
    ensures { Does result (putting_plan b j a (Some top')) told }
{
    match told {
        Told::Nothing => Action::Pay,
        Told::One(_) => Action::Close(Statement::Putting {
            b,
            j,
            a,
            c: b,
            p: 0,
            q: 0,
            r: 0,
        }),
        _ => Action::Fail,
    }
}

fn put_var(b: u16, j: u32, a: u16, k: u16, told: Told) -> Action
    ensures { Does result (putting_plan b j a (Some (var' k))) told }
{
    let k = u32::from(k);
    if k == j {
        return match told {
            Told::Nothing => Action::Pay,
            Told::One(_) => Action::Close(Statement::Putting {
                b,
                j,
                a,
                c: a,
                p: 0,
                q: 0,
                r: 0,
            }),
            _ => Action::Fail,
        };
    }
    if k < j {
        return put_top(b, j, a, told);
    }
    match told {
        Told::Nothing => Action::Pay,
        Told::One(_) => Action::Lay(Statement::TypeVar {
            k: u64::from(k - 1),
        }),
        Told::Two(_, c) => Action::Close(Statement::Putting {
            b,
            j,
            a,
            c: c.line,
            p: 0,
            q: 0,
            r: 0,
        }),
        _ => Action::Fail,
    }
}

fn put_arrow(b: u16, j: u32, a: u16, left: u16, right: u16, told: Told) -> Action
    ensures { Does result (putting_plan b j a (Some (arrow' left right))) told }
{
    match told {
        Told::Nothing => Action::Ask(Goal::Putting { b: left, j, a }),
        Told::One(_) => Action::Ask(Goal::Putting { b: right, j, a }),
        Told::Two(_, _) => Action::Pay,
        Told::Three(p, q, _) => Action::Lay(Statement::Arrow {
            a: p.result,
            b: q.result,
        }),
        Told::Four(p, q, _, c) => Action::Close(Statement::Putting {
            b,
            j,
            a,
            c: c.line,
            p: p.line,
            q: q.line,
            r: 0,
        }),
        Told::Five(..) => Action::Fail,
    }
}

fn put_all(b: u16, j: u32, a: u16, bound: u16, body: u16, told: Told) -> Action
    requires { j ≤ 65535 }
    ensures { Does result (putting_plan b j a (Some (all' bound body))) told }
{
    match told {
        Told::Nothing => Action::Ask(Goal::Putting { b: bound, j, a }),
        Told::One(_) => Action::Ask(Goal::Raising { a, j: 0 }),
        Told::Two(_, raised) => Action::Ask(Goal::Putting {
            b: body,
            j: j + 1,
            a: raised.result,
        }),
        Told::Three(_, _, _) => Action::Pay,
        Told::Four(p, _, r, _) => Action::Lay(Statement::All {
            a: p.result,
            b: r.result,
        }),
        Told::Five(p, q, r, _, c) => Action::Close(Statement::Putting {
            b,
            j,
            a,
            c: c.line,
            p: p.line,
            q: q.line,
            r: r.line,
        }),
    }
}

fn put_rec(b: u16, j: u32, a: u16, body: u16, told: Told) -> Action
    requires { j ≤ 65535 }
    ensures { Does result (putting_plan b j a (Some (rec' body))) told }
{
    match told {
        Told::Nothing => Action::Ask(Goal::Raising { a, j: 0 }),
        Told::One(raised) => Action::Ask(Goal::Putting {
            b: body,
            j: j + 1,
            a: raised.result,
        }),
        Told::Two(_, _) => Action::Pay,
        Told::Three(_, q, _) => Action::Lay(Statement::Rec { b: q.result }),
        Told::Four(p, q, _, c) => Action::Close(Statement::Putting {
            b,
            j,
            a,
            c: c.line,
            p: p.line,
            q: q.line,
            r: 0,
        }),
        Told::Five(..) => Action::Fail,
    }
}

pub(crate) fn next_put(b: u16, j: u32, a: u16, shown: Option<TypeLine>, told: Told) -> Action
    requires { j ≤ 65535 }
    ensures { Does result (putting_plan b j a (type_shown shown)) told }
{
    match shown {
        None => Action::Fail,
        Some(TypeLine::Top) => put_top(b, j, a, told),
        Some(TypeLine::Var(k)) => put_var(b, j, a, k, told),
        Some(TypeLine::Arrow(left, right)) => put_arrow(b, j, a, left, right, told),
        Some(TypeLine::All(bound, body)) => put_all(b, j, a, bound, body, told),
        Some(TypeLine::Rec(body)) => put_rec(b, j, a, body, told),
    }
}
