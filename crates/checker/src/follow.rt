// Cause 5: a line follows from the lines before it.

ghost use Rattle.std.specs.Prelude.{◌≡◌};
ghost use Rattle.checker.specs.Decide.{at, follows, numbered_variable};

use crate::definition::{Session, define_term, define_type};
use crate::formed::{env, formed};
use crate::name::name;
use crate::prefix::Prefix;
use crate::put::put;
use crate::raise::raise;
use crate::subtype::subtype;
use crate::typed::typed;
use crate::variable::{bound, typing};
use lines::{Line, LineStore, code};

// The number of a variable is not 0.
fn numbered_variable(variable: u8, l: Line) -> bool
    ensures { result ≡ numbered_variable variable l }
{
    l.code != variable || l.c1 != 0
}

pub(crate) fn follows<S: LineStore>(before: &Prefix<S>, session: Session, l: Line) -> bool
    ensures { result ≡ follows (at before.now) session.latest session.env l }
{
    // Kept as a match, here and in the rules: the checker decides a line by ranges of codes, a function a rule.
    match l.code {
        code::TYPE_TOP..=code::TYPE_REC => numbered_variable(code::TYPE_VAR, l),
        code::TERM_TOP..=code::TERM_REC => numbered_variable(code::TERM_VAR, l),
        code::ENV_EMPTY..=code::ENV_TYPE => true,
        code::RAISE => raise(before, l),
        code::PUT => put(before, l),
        code::BOUND => bound(before, l),
        code::TYPING => typing(before, l),
        code::IS_ENV => env(before, l),
        code::IS_TYPE => formed(before, l),
        code::SUB_REFL..=code::SUB_ALL_LEAST => subtype(before, l),
        code::HAS_SUBSUMED..=code::HAS_REC => typed(before, l),
        code::NAME => name(l),
        code::LET_TYPE => define_type(before, session, l),
        code::LET_TERM => define_term(before, session, l),
        _ => false,
    }
}
