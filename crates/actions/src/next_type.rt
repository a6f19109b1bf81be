// 51: a is a type. The environment of a statement is put before the statement is sought, and Top before that where it is the bound.

ghost use Rattle.std.specs.Prelude.{Some};
ghost use Rattle.judge.specs.Plans.{type_plan};
ghost use Rattle.rules.specs.Statements.{top', var', arrow', all', rec'};
ghost use Rattle.actions.specs.Actions.{Does, type_shown};

use crate::action::Action;
use crate::goal::Goal;
use crate::shown::TypeLine;
use crate::statement::Statement;
use crate::told::Told;

fn type_top(env: u16, a: u16, told: Told) -> Action
    ensures { Does result (type_plan env a (Some top')) told }
{
    match told {
        Told::Nothing => Action::Ask(Goal::Env { env }),
        Told::One(_) => Action::Pay,
        Told::Two(p, _) => Action::Close(Statement::IsType {
            env,
            a,
            p: p.line,
            q: 0,
        }),
        _ => Action::Fail,
    }
}

fn type_var(env: u16, a: u16, k: u16, told: Told) -> Action
    ensures { Does result (type_plan env a (Some (var' k))) told }
{
    match told {
        Told::Nothing => Action::Ask(Goal::Env { env }),
        Told::One(_) => Action::Ask(Goal::Bound { env, k }),
        Told::Two(_, _) => Action::Pay,
        Told::Three(p, q, _) => Action::Close(Statement::IsType {
            env,
            a,
            p: p.line,
            q: q.line,
        }),
        _ => Action::Fail,
    }
}

fn type_arrow(env: u16, a: u16, left: u16, right: u16, told: Told) -> Action
    ensures { Does result (type_plan env a (Some (arrow' left right))) told }
{
    match told {
        Told::Nothing => Action::Ask(Goal::Type { env, a: left }),
        Told::One(_) => Action::Ask(Goal::Type { env, a: right }),
        Told::Two(_, _) => Action::Pay,
        Told::Three(p, q, _) => Action::Close(Statement::IsType {
            env,
            a,
            p: p.line,
            q: q.line,
        }),
        _ => Action::Fail,
    }
}

fn type_all(env: u16, a: u16, bound: u16, body: u16, told: Told) -> Action
    ensures { Does result (type_plan env a (Some (all' bound body))) told }
{
    match told {
        Told::Nothing => Action::Lay(Statement::EnvType { env, a: bound }),
        Told::One(inner) => Action::Ask(Goal::Type {
            env: inner.line,
            a: body,
        }),
        Told::Two(_, _) => Action::Pay,
        Told::Three(_, p, _) => Action::Close(Statement::IsType {
            env,
            a,
            p: p.line,
            q: 0,
        }),
        _ => Action::Fail,
    }
}

fn type_rec(env: u16, a: u16, body: u16, told: Told) -> Action
    ensures { Does result (type_plan env a (Some (rec' body))) told }
{
    match told {
        Told::Nothing => Action::Lay(Statement::TypeTop),
        Told::One(top) => Action::Lay(Statement::EnvType { env, a: top.line }),
        Told::Two(_, inner) => Action::Ask(Goal::Type {
            env: inner.line,
            a: body,
        }),
        Told::Three(_, _, _) => Action::Pay,
        Told::Four(_, _, p, _) => Action::Close(Statement::IsType {
            env,
            a,
            p: p.line,
            q: 0,
        }),
        Told::Five(..) => Action::Fail,
    }
}

pub(crate) fn next_type(env: u16, a: u16, shown: Option<TypeLine>, told: Told) -> Action
    ensures { Does result (type_plan env a (type_shown shown)) told }
{
    match shown {
        None => Action::Fail,
        Some(TypeLine::Top) => type_top(env, a, told),
        Some(TypeLine::Var(k)) => type_var(env, a, k, told),
        Some(TypeLine::Arrow(left, right)) => type_arrow(env, a, left, right, told),
        Some(TypeLine::All(bound, body)) => type_all(env, a, bound, body, told),
        Some(TypeLine::Rec(body)) => type_rec(env, a, body, told),
    }
}
