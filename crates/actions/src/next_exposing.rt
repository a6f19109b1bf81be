// 74, 76 and 78, from where the type t of the function or the argument is exposed, and line p gives it. While t is a variable, its 62 and a 70
// are added.

ghost use Rattle.std.specs.Prelude.{◌≡◌, Some, suc};
ghost use Rattle.judge.specs.Goals.{appl_placed, appl2_placed, unfold_placed};
ghost use Rattle.judge.specs.Loop.{after, action};
ghost use Rattle.judge.specs.Plans.{as_type, exposed_plan, exposing_plan, exposed_line};
ghost use Rattle.rules.specs.Statements.{said, arrow', all', rec', var'};
ghost use Rattle.actions.specs.Actions.{answers, done, type_of};

use crate::action::Action;
use crate::goal::{Exposing, Goal};
use crate::shown::{TypeLine, type_at};
use crate::statement::{HasRule, Statement};
use crate::told::Told;
use crate::tree::{Form, Term, Tree};
use lines::LineStore;

// The argument is brought to the domain of the arrow.
fn appl_arrow<T: Tree>(
    tree: &T,
    byte: u16,
    env: u16,
    line: u16,
    function: usize,
    argument: usize,
    p: u16,
    t: u16,
    left: u16,
    right: u16,
    told: Told,
) -> Action
    ensures { done (T.terms tree.now) result ≡ action (after (exposed_plan env (appl_placed byte (T.terms tree.now function) (T.terms tree.now argument) line) p t (arrow' left right)) (answers told)) }
{
    match told {
        Told::Nothing => Action::Ask(Goal::Term {
            env,
            node: argument,
        }),
        Told::One(q) => {
            if q.result == left {
                return Action::Pay;
            }
            Action::Ask(Goal::Sub {
                env,
                a: q.result,
                b: left,
            })
        }
        Told::Two(q, x) => {
            if q.result == left {
                return Action::Close(Statement::Has {
                    rule: HasRule::Appl,
                    env,
                    term: line,
                    a: right,
                    p,
                    q: q.line,
                    r: 0,
                });
            }
            Action::Ask(Goal::Subsumed {
                env,
                a: tree.line(argument),
                b: left,
                p: q.line,
                q: x.line,
            })
        }
        Told::Three(q, _, _) => {
            if q.result == left {
                return Action::Fail;
            }
            Action::Pay
        }
        Told::Four(q, _, r, _) => {
            if q.result == left {
                return Action::Fail;
            }
            Action::Close(Statement::Has {
                rule: HasRule::Appl,
                env,
                term: line,
                a: right,
                p,
                q: r.line,
                r: 0,
            })
        }
        Told::Five(..) => Action::Fail,
    }
}

// The argument is below the bound of the All.
fn appl2_all<T: Tree>(
    tree: &T,
    byte: u16,
    env: u16,
    line: u16,
    function: usize,
    argument: u16,
    p: u16,
    t: u16,
    bound: u16,
    body: u16,
    told: Told,
) -> Action
    ensures { done (T.terms tree.now) result ≡ action (after (exposed_plan env (appl2_placed byte (T.terms tree.now function) argument line) p t (all' bound body)) (answers told)) }
{
    match told {
        Told::Nothing => Action::Ask(Goal::Sub {
            env,
            a: argument,
            b: bound,
        }),
        Told::One(_) => Action::Ask(Goal::Putting {
            b: body,
            j: 1,
            a: argument,
        }),
        Told::Two(_, _) => Action::Pay,
        Told::Three(q, r, _) => Action::Close(Statement::Has {
            rule: HasRule::Appl2,
            env,
            term: line,
            a: r.result,
            p,
            q: q.line,
            r: r.line,
        }),
        _ => Action::Fail,
    }
}

fn unfold_rec<T: Tree>(
    tree: &T,
    byte: u16,
    env: u16,
    line: u16,
    argument: usize,
    p: u16,
    t: u16,
    body: u16,
    told: Told,
) -> Action
    ensures { done (T.terms tree.now) result ≡ action (after (exposed_plan env (unfold_placed byte (T.terms tree.now argument) line) p t (rec' body)) (answers told)) }
{
    match told {
        Told::Nothing => Action::Ask(Goal::Putting {
            b: body,
            j: 1,
            a: t,
        }),
        Told::One(_) => Action::Pay,
        Told::Two(q, _) => Action::Close(Statement::Has {
            rule: HasRule::Unfold,
            env,
            term: line,
            a: q.result,
            p,
            q: q.line,
            r: 0,
        }),
        _ => Action::Fail,
    }
}

// What is left once a type that is no variable is exposed.
fn exposed<T: Tree>(
    tree: &T,
    env: u16,
    node: usize,
    p: u16,
    t: u16,
    shown: TypeLine,
    told: Told,
) -> Action
    ensures { done (T.terms tree.now) result ≡ action (after (exposed_plan env (T.terms tree.now node) p t (type_of shown)) (answers told)) }
{
    let Term { byte, line, form } = tree.term(node);
    match (form, shown) {
        (Form::Appl { function, argument }, TypeLine::Arrow(left, right)) => appl_arrow(
            tree, byte, env, line, function, argument, p, t, left, right, told,
        ),
        (Form::Appl2 { function, argument }, TypeLine::All(bound, body)) => appl2_all(
            tree, byte, env, line, function, argument, p, t, bound, body, told,
        ),
        (Form::Unfold { argument }, TypeLine::Rec(body)) => unfold_rec(
            tree, byte, env, line, argument, p, t, body, told,
        ),
        _ => Action::Fail,
    }
}

// The line of the function or argument whose type is exposed.
fn exposed_line<T: Tree>(tree: &T, node: usize) -> u16
    ensures { result ≡ exposed_line (T.terms tree.now node) }
{
    match tree.term(node).form {
        Form::Appl { function, .. } | Form::Appl2 { function, .. } => tree.line(function),
        Form::Unfold { argument } => tree.line(argument),
        _ => 0,
    }
}

fn past_var<T: Tree>(
    tree: &T,
    most: u32,
    env: u16,
    node: usize,
    p: u16,
    t: u16,
    k: u16,
    told: Told,
) -> Action
    ensures { done (T.terms tree.now) result ≡ action (after (exposing_plan most env (T.terms tree.now node) p t (Some (var' k))) (answers told)) }
{
    if most == 0 {
        return Action::Fail;
    }
    match told {
        Told::Nothing => Action::Ask(Goal::Var { env, a: t }),
        Told::One(q) => Action::Ask(Goal::Subsumed {
            env,
            a: exposed_line(tree, node),
            b: q.result,
            p,
            q: q.line,
        }),
        Told::Two(q, r) => Action::Become(Exposing {
            most: most - 1,
            env,
            node,
            p: r.line,
            t: q.result,
        }),
        _ => Action::Fail,
    }
}

pub(crate) fn next_exposing<S: LineStore, T: Tree>(
    store: &S,
    tree: &T,
    most: u32,
    env: u16,
    node: usize,
    p: u16,
    t: u16,
    told: Told,
) -> Action
    ensures { done (T.terms tree.now) result ≡ action (after (exposing_plan most env (T.terms tree.now node) p t (as_type (said (S.lines store.now) t))) (answers told)) }
{
    match type_at(store, t) {
        None => Action::Fail,
        Some(TypeLine::Var(k)) => past_var(tree, most, env, node, p, t, k, told),
        Some(shown) => exposed(tree, env, node, p, t, shown, told),
    }
}
