// 42 and 43: the bound of a type variable and the type of a term variable in an environment. Columns E, k, the type, and two premises:
// the same statement without the last binding, or 0 if that is meant; the raising above 0 if the last binding is of a type.

ghost use Rattle.std.specs.Prelude.{◌≡◌};
ghost use Rattle.checker.specs.Decide.{at, bound, bound_last, bound_past_type, bound_past_term, typing, typing_last, typing_past_term, typing_past_type};

use crate::prefix::Prefix;
use lines::{Line, LineStore, code};

fn bound_last<S: LineStore>(before: &Prefix<S>, e: Line, l: Line) -> bool
    ensures { result ≡ bound_last (at before.now) e l }
{
    l.c2 == 1 && before.raises(l.c5, e.c2, 0, l.c3)
}

// Kept beside typing_past_term: the two share how they name the statement without the last binding, and no more.
fn bound_past_type<S: LineStore>(before: &Prefix<S>, e: Line, l: Line) -> bool
    ensures { result ≡ bound_past_type (at before.now) e l }
{
    let p = before.line(l.c4);
    p.code == code::BOUND
        && p.c1 == e.c1
        && p.c2.checked_add(1) == Some(l.c2)
        && before.raises(l.c5, p.c3, 0, l.c3)
}

fn bound_past_term<S: LineStore>(before: &Prefix<S>, e: Line, l: Line) -> bool
    ensures { result ≡ bound_past_term (at before.now) e l }
{
    before.bound_is(l.c4, e.c1, l.c2, l.c3) && l.c5 == 0
}

pub(crate) fn bound<S: LineStore>(before: &Prefix<S>, l: Line) -> bool
    ensures { result ≡ bound (at before.now) l }
{
    let e = before.line(l.c1);
    match e.code {
        code::ENV_TERM => bound_past_term(before, e, l),
        code::ENV_TYPE if l.c4 == 0 => bound_last(before, e, l),
        code::ENV_TYPE => bound_past_type(before, e, l),
        _ => false,
    }
}

fn typing_last(e: Line, l: Line) -> bool
    ensures { result ≡ typing_last e l }
{
    l.c2 == 1 && l.c3 == e.c2 && l.c5 == 0
}

fn typing_past_term<S: LineStore>(before: &Prefix<S>, e: Line, l: Line) -> bool
    ensures { result ≡ typing_past_term (at before.now) e l }
{
    let p = before.line(l.c4);
    p.code == code::TYPING
        && p.c1 == e.c1
        && p.c2.checked_add(1) == Some(l.c2)
        && p.c3 == l.c3
        && l.c5 == 0
}

fn typing_past_type<S: LineStore>(before: &Prefix<S>, e: Line, l: Line) -> bool
    ensures { result ≡ typing_past_type (at before.now) e l }
{
    let unraised = before.line(l.c4).c3;
    before.typing_is(l.c4, e.c1, l.c2, unraised) && before.raises(l.c5, unraised, 0, l.c3)
}

pub(crate) fn typing<S: LineStore>(before: &Prefix<S>, l: Line) -> bool
    ensures { result ≡ typing (at before.now) l }
{
    let e = before.line(l.c1);
    match e.code {
        code::ENV_TERM if l.c4 == 0 => typing_last(e, l),
        code::ENV_TERM => typing_past_term(before, e, l),
        code::ENV_TYPE => typing_past_type(before, e, l),
        _ => false,
    }
}
