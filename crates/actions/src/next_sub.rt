// 60 to 66: a <: b. First whether b is Top, then whether a is b, then by what they are.

ghost use Rattle.std.specs.Prelude.{◌≡◌, Some};
ghost use Rattle.judge.specs.Goals.{ask, pay, close, seek_type};
ghost use Rattle.judge.specs.Plans.{is_top, sub_plan, tries_plan, all_plan, bodies_plan, body_line};
ghost use Rattle.rules.specs.Quantifiers.{bodies_under};
ghost use Rattle.rules.specs.declared.all_code.Bounds.TheVariants.{Same, RightBelowLeft};
ghost use Rattle.rules.specs.Statements.{var', arrow', all', sub_judged};
ghost use Rattle.actions.specs.Actions.{Does, type_shown, sub_rule};

use crate::action::Action;
use crate::goal::Goal;
use crate::shown::TypeLine;
use crate::statement::{Statement, SubRule};
use crate::told::Told;
use rules::{BodyBound, Bounds, Quantifier};

fn is_top(shown: Option<TypeLine>) -> bool
    ensures { result ≡ is_top (type_shown shown) }
{
    matches!(shown, Some(TypeLine::Top))
}

// By a 51 of a alone.
fn by_type(rule: SubRule, env: u16, a: u16, b: u16, told: Told) -> Action
    ensures { Does result (ask (seek_type env a) (λ p x. pay (close (sub_judged (sub_rule rule) env a b p 0)))) told }
{
    match told {
        Told::Nothing => Action::Ask(Goal::Type { env, a }),
        Told::One(_) => Action::Pay,
        Told::Two(p, _) => Action::Close(Statement::IsSub {
            rule,
            env,
            a,
            b,
            p: p.line,
            q: 0,
        }),
        _ => Action::Fail,
    }
}

fn sub_var<Q: Quantifier>(
    env: u16,
    a: u16,
    b: u16,
    k: u16,
    other: Option<TypeLine>,
    told: Told,
) -> Action
    ensures { Does result (tries_plan Q.rule env a b (Some (var' k)) (type_shown other)) told }
{
    match told {
        Told::Nothing => Action::Ask(Goal::Var { env, a }),
        Told::One(p) => Action::Ask(Goal::Sub {
            env,
            a: p.result,
            b,
        }),
        Told::Two(_, _) => Action::Pay,
        Told::Three(p, q, _) => Action::Close(Statement::IsSub {
            rule: SubRule::Trans,
            env,
            a,
            b,
            p: p.line,
            q: q.line,
        }),
        _ => Action::Fail,
    }
}

fn sub_arrow<Q: Quantifier>(
    env: u16,
    a: u16,
    b: u16,
    left: (u16, u16),
    right: (u16, u16),
    told: Told,
) -> Action
    ensures { Does result (tries_plan Q.rule env a b (Some (arrow' left.0 left.1)) (Some (arrow' right.0 right.1))) told }
{
    match told {
        Told::Nothing => Action::Ask(Goal::Sub {
            env,
            a: right.0,
            b: left.0,
        }),
        Told::One(_) => Action::Ask(Goal::Sub {
            env,
            a: left.1,
            b: right.1,
        }),
        Told::Two(_, _) => Action::Pay,
        Told::Three(p, q, _) => Action::Close(Statement::IsSub {
            rule: SubRule::Arrow,
            env,
            a,
            b,
            p: p.line,
            q: q.line,
        }),
        _ => Action::Fail,
    }
}

// The bound under which the bodies of All(X<:a).. and All(X<:c).. are compared.
fn body_line<Q: Quantifier>(a: u16, c: u16) -> u16
    ensures { result ≡ body_line (bodies_under Q.rule.own) a c }
{
    match Q::body_bound() {
        BodyBound::Left => a,
        BodyBound::Right => c,
    }
}

// The bodies b and d under the bound on line t.
fn bodies<Q: Quantifier>(env: u16, a: u16, b: u16, t: u16, bodies: (u16, u16), told: Told) -> Action
    ensures { Does result (bodies_plan Q.rule.own env a b t bodies.0 bodies.1) told }
{
    match told {
        Told::Nothing => Action::Lay(Statement::EnvType { env, a: t }),
        Told::One(inner) => Action::Ask(Goal::Sub {
            env: inner.line,
            a: bodies.0,
            b: bodies.1,
        }),
        Told::Two(_, _) => Action::Pay,
        Told::Three(_, p, _) => Action::Close(Statement::IsSub {
            rule: SubRule::All(Q::code()),
            env,
            a,
            b,
            p: p.line,
            q: 0,
        }),
        _ => Action::Fail,
    }
}

fn same_bounds<Q: Quantifier>(
    env: u16,
    a: u16,
    b: u16,
    left: (u16, u16),
    right: (u16, u16),
    told: Told,
) -> Action
    ensures { Does result (all_plan Q.rule.own Same env a b left.0 left.1 right.0 right.1) told }
{
    if left.0 != right.0 {
        return Action::Fail;
    }
    bodies::<Q>(
        env,
        a,
        b,
        body_line::<Q>(left.0, right.0),
        (left.1, right.1),
        told,
    )
}

fn lower_bound<Q: Quantifier>(
    env: u16,
    a: u16,
    b: u16,
    left: (u16, u16),
    right: (u16, u16),
    told: Told,
) -> Action
    ensures { Does result (all_plan Q.rule.own RightBelowLeft env a b left.0 left.1 right.0 right.1) told }
{
    match told {
        Told::Nothing => Action::Ask(Goal::Sub {
            env,
            a: right.0,
            b: left.0,
        }),
        Told::One(_) => Action::Lay(Statement::EnvType {
            env,
            a: body_line::<Q>(left.0, right.0),
        }),
        Told::Two(_, inner) => Action::Ask(Goal::Sub {
            env: inner.line,
            a: left.1,
            b: right.1,
        }),
        Told::Three(_, _, _) => Action::Pay,
        Told::Four(p, _, q, _) => Action::Close(Statement::IsSub {
            rule: SubRule::All(Q::code()),
            env,
            a,
            b,
            p: p.line,
            q: q.line,
        }),
        Told::Five(..) => Action::Fail,
    }
}

fn sub_all<Q: Quantifier>(
    env: u16,
    a: u16,
    b: u16,
    left: (u16, u16),
    right: (u16, u16),
    told: Told,
) -> Action
    ensures { Does result (tries_plan Q.rule env a b (Some (all' left.0 left.1)) (Some (all' right.0 right.1))) told }
{
    match Q::bounds() {
        Bounds::Same => same_bounds::<Q>(env, a, b, left, right, told),
        Bounds::RightBelowLeft => lower_bound::<Q>(env, a, b, left, right, told),
    }
}

fn tries<Q: Quantifier>(
    env: u16,
    a: u16,
    b: u16,
    left: Option<TypeLine>,
    right: Option<TypeLine>,
    told: Told,
) -> Action
    ensures { Does result (tries_plan Q.rule env a b (type_shown left) (type_shown right)) told }
{
    match (left, right) {
        (Some(TypeLine::Var(k)), _) => sub_var::<Q>(env, a, b, k, right, told),
        (Some(TypeLine::Arrow(c, d)), Some(TypeLine::Arrow(e, f))) => sub_arrow::<Q>(
            env,
            a,
            b,
            (c, d),
            (e, f),
            told,
        ),
        (Some(TypeLine::All(c, d)), Some(TypeLine::All(e, f))) => sub_all::<Q>(
            env,
            a,
            b,
            (c, d),
            (e, f),
            told,
        ),
        _ => Action::Fail,
    }
}

pub(crate) fn next_sub<Q: Quantifier>(
    env: u16,
    a: u16,
    b: u16,
    left: Option<TypeLine>,
    right: Option<TypeLine>,
    told: Told,
) -> Action
    ensures { Does result (sub_plan Q.rule env a b (type_shown left) (type_shown right)) told }
{
    if is_top(right) {
        return by_type(SubRule::Top, env, a, b, told);
    }
    if a == b {
        return by_type(SubRule::Refl, env, a, b, told);
    }
    tries::<Q>(env, a, b, left, right, told)
}
