// 71 to 79: a type of a term, by the term's own rule.

ghost use Rattle.std.specs.Prelude.{◌≡◌, Some};
ghost use Rattle.judge.specs.Goals.{ask, seek_term, top_placed, var_placed, fun_placed, appl_placed, fun2_placed, appl2_placed, fold_placed, unfold_placed, rec_placed};
ghost use Rattle.judge.specs.Loop.{after, action};
ghost use Rattle.judge.specs.Plans.{as_type, term_plan, fold_plan, exposure};
ghost use Rattle.rules.specs.Statements.{Get, said, rec'};
ghost use Rattle.actions.specs.Actions.{Does, answers, done, type_shown};
ghost use Rattle.actions.specs.Terms.{placed, formed};

use crate::action::Action;
use crate::goal::{Exposing, Goal};
use crate::shown::{TypeLine, type_at};
use crate::statement::{HasRule, Statement};
use crate::told::Told;
use crate::tree::{Form, Term, Tree};
use lines::LineStore;

fn term_var(byte: u16, env: u16, line: u16, k: u16, told: Told) -> Action
    ensures { (g : Get) → Does result (term_plan g env (var_placed byte k line)) told }
{
    match told {
        Told::Nothing => Action::Ask(Goal::Env { env }),
        Told::One(_) => Action::Ask(Goal::Typing { env, k }),
        Told::Two(_, _) => Action::Pay,
        Told::Three(p, q, _) => Action::Close(Statement::Has {
            rule: HasRule::Var,
            env,
            term: line,
            a: q.result,
            p: p.line,
            q: q.line,
            r: 0,
        }),
        _ => Action::Fail,
    }
}

fn term_top(byte: u16, env: u16, line: u16, told: Told) -> Action
    ensures { (g : Get) → Does result (term_plan g env (top_placed byte line)) told }
{
    match told {
        Told::Nothing => Action::Ask(Goal::Env { env }),
        Told::One(_) => Action::Pay,
        Told::Two(_, _) => Action::Lay(Statement::TypeTop),
        Told::Three(p, _, top) => Action::Close(Statement::Has {
            rule: HasRule::Top,
            env,
            term: line,
            a: top.line,
            p: p.line,
            q: 0,
            r: 0,
        }),
        _ => Action::Fail,
    }
}

fn term_fun<T: Tree>(
    tree: &T,
    byte: u16,
    env: u16,
    line: u16,
    domain: u16,
    body: usize,
    told: Told,
) -> Action
    ensures { (g : Get) → done (T.terms tree.now) result ≡ action (after (term_plan g env (fun_placed byte domain (T.terms tree.now body) line)) (answers told)) }
{
    match told {
        Told::Nothing => Action::Lay(Statement::EnvTerm { env, a: domain }),
        Told::One(inner) => Action::Ask(Goal::Term {
            env: inner.line,
            node: body,
        }),
        Told::Two(_, _) => Action::Pay,
        Told::Three(_, p, _) => Action::Lay(Statement::Arrow {
            a: domain,
            b: p.result,
        }),
        Told::Four(_, p, _, c) => Action::Close(Statement::Has {
            rule: HasRule::Fun,
            env,
            term: line,
            a: c.line,
            p: p.line,
            q: 0,
            r: 0,
        }),
        Told::Five(..) => Action::Fail,
    }
}

fn term_fun2<T: Tree>(
    tree: &T,
    byte: u16,
    env: u16,
    line: u16,
    bound: u16,
    body: usize,
    told: Told,
) -> Action
    ensures { (g : Get) → done (T.terms tree.now) result ≡ action (after (term_plan g env (fun2_placed byte bound (T.terms tree.now body) line)) (answers told)) }
{
    match told {
        Told::Nothing => Action::Lay(Statement::EnvType { env, a: bound }),
        Told::One(inner) => Action::Ask(Goal::Term {
            env: inner.line,
            node: body,
        }),
        Told::Two(_, _) => Action::Pay,
        Told::Three(_, p, _) => Action::Lay(Statement::All {
            a: bound,
            b: p.result,
        }),
        Told::Four(_, p, _, c) => Action::Close(Statement::Has {
            rule: HasRule::Fun2,
            env,
            term: line,
            a: c.line,
            p: p.line,
            q: 0,
            r: 0,
        }),
        Told::Five(..) => Action::Fail,
    }
}

// The argument is brought to what comes of the Rec that it is folded to.
fn fold_rec<T: Tree>(
    tree: &T,
    env: u16,
    line: u16,
    to: u16,
    body: u16,
    argument: usize,
    told: Told,
) -> Action
    ensures { done (T.terms tree.now) result ≡ action (after (fold_plan env to (T.terms tree.now argument) line (Some (rec' body))) (answers told)) }
{
    match told {
        Told::Nothing => Action::Ask(Goal::Putting {
            b: body,
            j: 1,
            a: to,
        }),
        Told::One(_) => Action::Ask(Goal::Term {
            env,
            node: argument,
        }),
        Told::Two(p, q) => {
            if q.result == p.result {
                return Action::Pay;
            }
            Action::Ask(Goal::Sub {
                env,
                a: q.result,
                b: p.result,
            })
        }
        Told::Three(p, q, x) => {
            if q.result == p.result {
                return Action::Close(Statement::Has {
                    rule: HasRule::Fold,
                    env,
                    term: line,
                    a: to,
                    p: p.line,
                    q: q.line,
                    r: 0,
                });
            }
            Action::Ask(Goal::Subsumed {
                env,
                a: tree.line(argument),
                b: p.result,
                p: q.line,
                q: x.line,
            })
        }
        Told::Four(p, q, _, _) => {
            if q.result == p.result {
                return Action::Fail;
            }
            Action::Pay
        }
        Told::Five(p, q, _, r, _) => {
            if q.result == p.result {
                return Action::Fail;
            }
            Action::Close(Statement::Has {
                rule: HasRule::Fold,
                env,
                term: line,
                a: to,
                p: p.line,
                q: r.line,
                r: 0,
            })
        }
    }
}

// The body is brought to the type that the term states.
fn term_rec<T: Tree>(
    tree: &T,
    byte: u16,
    env: u16,
    line: u16,
    domain: u16,
    body: usize,
    told: Told,
) -> Action
    ensures { (g : Get) → done (T.terms tree.now) result ≡ action (after (term_plan g env (rec_placed byte domain (T.terms tree.now body) line)) (answers told)) }
{
    match told {
        Told::Nothing => Action::Lay(Statement::EnvTerm { env, a: domain }),
        Told::One(inner) => Action::Ask(Goal::Term {
            env: inner.line,
            node: body,
        }),
        Told::Two(inner, p) => {
            if p.result == domain {
                return Action::Pay;
            }
            Action::Ask(Goal::Sub {
                env: inner.line,
                a: p.result,
                b: domain,
            })
        }
        Told::Three(inner, p, x) => {
            if p.result == domain {
                return Action::Close(Statement::Has {
                    rule: HasRule::Rec,
                    env,
                    term: line,
                    a: domain,
                    p: p.line,
                    q: 0,
                    r: 0,
                });
            }
            Action::Ask(Goal::Subsumed {
                env: inner.line,
                a: tree.line(body),
                b: domain,
                p: p.line,
                q: x.line,
            })
        }
        Told::Four(_, p, _, _) => {
            if p.result == domain {
                return Action::Fail;
            }
            Action::Pay
        }
        Told::Five(_, p, _, q, _) => {
            if p.result == domain {
                return Action::Fail;
            }
            Action::Close(Statement::Has {
                rule: HasRule::Rec,
                env,
                term: line,
                a: domain,
                p: q.line,
                q: 0,
                r: 0,
            })
        }
    }
}

// First a type of the function or the argument, which is then exposed.
fn exposed<T: Tree>(tree: &T, env: u16, node: usize, part: usize, told: Told) -> Action
    ensures { done (T.terms tree.now) result ≡ action (after (ask (seek_term env (T.terms tree.now part)) (λ p t. exposure env (T.terms tree.now node) p t)) (answers told)) }
{
    match told {
        Told::Nothing => Action::Ask(Goal::Term { env, node: part }),
        Told::One(p) => Action::Become(Exposing {
            most: u32::from(env) + 1,
            env,
            node,
            p: p.line,
            t: p.result,
        }),
        _ => Action::Fail,
    }
}

fn by_fold<S: LineStore, T: Tree>(
    store: &S,
    tree: &T,
    env: u16,
    line: u16,
    to: u16,
    argument: usize,
    told: Told,
) -> Action
    ensures { done (T.terms tree.now) result ≡ action (after (fold_plan env to (T.terms tree.now argument) line (as_type (said (S.lines store.now) to))) (answers told)) }
{
    let Some(TypeLine::Rec(body)) = type_at(store, to) else {
        return Action::Fail;
    };
    fold_rec(tree, env, line, to, body, argument, told)
}

pub(crate) fn next_term<S: LineStore, T: Tree>(
    store: &S,
    tree: &T,
    env: u16,
    node: usize,
    told: Told,
) -> Action
    ensures { done (T.terms tree.now) result ≡ action (after (term_plan (said (S.lines store.now)) env (T.terms tree.now node)) (answers told)) }
{
    let Term { byte, line, form } = tree.term(node);
    match form {
        Form::Top => term_top(byte, env, line, told),
        Form::Var { k } => term_var(byte, env, line, k, told),
        Form::Fun { domain, body } => term_fun(tree, byte, env, line, domain, body, told),
        Form::Appl { function, .. } => exposed(tree, env, node, function, told),
        Form::Fun2 { bound, body } => term_fun2(tree, byte, env, line, bound, body, told),
        Form::Appl2 { function, .. } => exposed(tree, env, node, function, told),
        Form::Fold { to, argument } => by_fold(store, tree, env, line, to, argument, told),
        Form::Unfold { argument } => exposed(tree, env, node, argument, told),
        Form::Rec { domain, body } => term_rec(tree, byte, env, line, domain, body, told),
    }
}
