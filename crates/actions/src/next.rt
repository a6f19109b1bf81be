// The next action for any goal.

ghost use Rattle.std.specs.Prelude.{◌≡◌};
ghost use Rattle.judge.specs.Loop.{after, action};
ghost use Rattle.judge.specs.Plans.{plan};
ghost use Rattle.rules.specs.Statements.{said};
ghost use Rattle.actions.specs.Actions.{Fits, answers, done, sought};
ghost use Rattle.actions.specs.Room.{GoesOn};

use crate::action::Action;
use crate::goal::{Exposing, Goal};
use crate::next_bound::next_bound;
use crate::next_env::next_env;
use crate::next_exposing::next_exposing;
use crate::next_put::next_put;
use crate::next_raise::next_raise;
use crate::next_sub::next_sub;
use crate::next_subsumed::next_subsumed;
use crate::next_term::next_term;
use crate::next_type::next_type;
use crate::next_typing::next_typing;
use crate::next_var::next_var;
use crate::shown::{env_at, type_at};
use crate::told::Told;
use crate::tree::Tree;
use lines::LineStore;
use rules::Quantifier;

fn planned<Q: Quantifier, S: LineStore, T: Tree>(
    store: &S,
    tree: &T,
    goal: Goal,
    told: Told,
) -> Action
    requires { Fits goal }
    ensures { done (T.terms tree.now) result ≡ action (after (plan Q.rule (said (S.lines store.now)) (sought (T.terms tree.now) goal)) (answers told)) }
{
    match goal {
        Goal::Raising { a, j } => next_raise(a, j, type_at(store, a), told),
        Goal::Putting { b, j, a } => next_put(b, j, a, type_at(store, b), told),
        Goal::Bound { env, k } => next_bound(env, k, env_at(store, env), told),
        Goal::Typing { env, k } => next_typing(env, k, env_at(store, env), told),
        Goal::Env { env } => next_env(env, env_at(store, env), told),
        Goal::Type { env, a } => next_type(env, a, type_at(store, a), told),
        Goal::Sub { env, a, b } => next_sub::<Q>(
            env,
            a,
            b,
            type_at(store, a),
            type_at(store, b),
            told,
        ),
        Goal::Var { env, a } => next_var(env, a, type_at(store, a), told),
        Goal::Term { env, node } => next_term(store, tree, env, node, told),
        Goal::Subsumed { env, a, b, p, q } => next_subsumed(env, a, b, p, q, told),
        Goal::Exposing(
            Exposing {
                most,
                env,
                node,
                p,
                t,
            },
        ) => next_exposing(store, tree, most, env, node, p, t, told),
    }
}

// A goal whose plain number no line can hold has no plan that is gone through.
// Kept apart: that a plan which goes on has room for an answer is shown once, and not for each goal.
pub fn next_action<Q: Quantifier, S: LineStore, T: Tree>(
    store: &S,
    tree: &T,
    goal: Goal,
    told: Told,
) -> Action
    ensures action { Fits goal → done (T.terms tree.now) result ≡ action (after (plan Q.rule (said (S.lines store.now)) (sought (T.terms tree.now) goal)) (answers told)) }
    ensures room { GoesOn result told }
{
    if !goal.fits() {
        return Action::Fail;
    }
    planned::<Q, S, T>(store, tree, goal, told)
}
