// 50: E is an environment. Columns E and the line that says its last binding's type is one.
// 51: A is a type in E. Columns E, A and two premises.

ghost use Rattle.std.specs.Prelude.{◌≡◌};
ghost use Rattle.checker.specs.Decide.{at, env, formed, type_top, type_var, type_arrow, type_all, type_rec};

use crate::prefix::Prefix;
use lines::{Line, LineStore, code};

pub(crate) fn env<S: LineStore>(before: &Prefix<S>, l: Line) -> bool
    ensures { result ≡ env (at before.now) l }
{
    let e = before.line(l.c1);
    match e.code {
        code::ENV_EMPTY => l.c2 == 0,
        code::ENV_TERM | code::ENV_TYPE => before.is_type(l.c2, e.c1, e.c2),
        _ => false,
    }
}

fn type_top<S: LineStore>(before: &Prefix<S>, l: Line) -> bool
    ensures { result ≡ type_top (at before.now) l }
{
    before.is_env(l.c3, l.c1) && l.c4 == 0
}

fn type_var<S: LineStore>(before: &Prefix<S>, k: u16, l: Line) -> bool
    ensures { result ≡ type_var (at before.now) k l }
{
    let bound = before.line(l.c4).c3;
    before.is_env(l.c3, l.c1) && before.bound_is(l.c4, l.c1, k, bound)
}

fn type_arrow<S: LineStore>(before: &Prefix<S>, a: Line, l: Line) -> bool
    ensures { result ≡ type_arrow (at before.now) a l }
{
    before.is_type(l.c3, l.c1, a.c1) && before.is_type(l.c4, l.c1, a.c2)
}

fn type_all<S: LineStore>(before: &Prefix<S>, a: Line, l: Line) -> bool
    ensures { result ≡ type_all (at before.now) a l }
{
    let f = before.line(l.c3).c1;
    before.is_type(l.c3, f, a.c2) && before.binds_type(f, l.c1, a.c1) && l.c4 == 0
}

fn type_rec<S: LineStore>(before: &Prefix<S>, a: Line, l: Line) -> bool
    ensures { result ≡ type_rec (at before.now) a l }
{
    let f = before.line(l.c3).c1;
    let t = before.line(f).c2;
    before.is_type(l.c3, f, a.c1)
        && before.binds_type(f, l.c1, t)
        && before.line(t).code == code::TYPE_TOP
        && l.c4 == 0
}

pub(crate) fn formed<S: LineStore>(before: &Prefix<S>, l: Line) -> bool
    ensures { result ≡ formed (at before.now) l }
{
    let a = before.line(l.c2);
    match a.code {
        code::TYPE_TOP => type_top(before, l),
        code::TYPE_VAR => type_var(before, a.c1, l),
        code::TYPE_ARROW => type_arrow(before, a, l),
        code::TYPE_ALL => type_all(before, a, l),
        code::TYPE_REC => type_rec(before, a, l),
        _ => false,
    }
}
