// A standing line is used again where its statement is sought; those of 40 to 43 are compared without their results, and 62 by its variable.

ghost use Rattle.std.specs.Prelude.{◌≡◌};
ghost use Rattle.actions.specs.Reuse.{line_answer, line_result, line_serves};

use crate::goal::Goal;
use lines::{Line, code};

fn serves(goal: Goal, l: Line) -> bool
    ensures { result ≡ line_serves goal l }
{
    match goal {
        Goal::Raising { a, j } => l.code == code::RAISE && a == l.c1 && j == u32::from(l.c2),
        Goal::Putting { b, j, a } => l.code == code::PUT
            && b == l.c1
            && j == u32::from(l.c2)
            && a == l.c3,
        Goal::Bound { env, k } => l.code == code::BOUND && env == l.c1 && k == l.c2,
        Goal::Typing { env, k } => l.code == code::TYPING && env == l.c1 && k == l.c2,
        Goal::Env { env } => l.code == code::IS_ENV && env == l.c1,
        Goal::Type { env, a } => l.code == code::IS_TYPE && env == l.c1 && a == l.c2,
        Goal::Sub { env, a, b } => {
            code::SUB_REFL <= l.code
                && l.code <= code::SUB_ALL_LEAST
                && env == l.c1
                && a == l.c2
                && b == l.c3
        }
        Goal::Var { env, a } => l.code == code::SUB_VAR && env == l.c1 && a == l.c2,
        Goal::Term { .. } | Goal::Subsumed { .. } | Goal::Exposing(_) => false,
    }
}

fn result(goal: Goal, l: Line) -> u16
    ensures { result ≡ line_result goal l }
{
    match goal {
        Goal::Putting { .. } => l.c4,
        Goal::Raising { .. }
        | Goal::Bound { .. }
        | Goal::Typing { .. }
        | Goal::Sub { .. }
        | Goal::Var { .. } => l.c3,
        _ => 0,
    }
}

// The line's result, if it serves the goal.
pub fn answer(goal: Goal, l: Line) -> Option<u16>
    ensures { result ≡ line_answer goal l }
{
    if !serves(goal, l) {
        return None;
    }
    Some(result(goal, l))
}
