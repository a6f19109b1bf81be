// 40: C is A with every type variable above j raised by 1. Columns A, j, C and a premise for each part.

ghost use Rattle.std.specs.Prelude.{◌≡◌};
ghost use Rattle.checker.specs.Decide.{at, raise, raise_by, raise_top, raise_var, raise_parts, raise_arrow, raise_all, raise_rec};

use crate::prefix::Prefix;
use lines::{Line, LineStore, code};

fn raise_top(l: Line) -> bool
    ensures { result ≡ raise_top l }
{
    l.c3 == l.c1 && l.c4 == 0 && l.c5 == 0
}

fn raise_var<S: LineStore>(before: &Prefix<S>, k: u16, l: Line) -> bool
    ensures { result ≡ raise_var (at before.now) k l }
{
    if l.c4 != 0 || l.c5 != 0 {
        return false;
    }
    if k <= l.c2 {
        return l.c3 == l.c1;
    }
    let c = before.line(l.c3);
    c.code == code::TYPE_VAR && k.checked_add(1) == Some(c.c1)
}

// A type of two parts: j for the first, and the second has its own.
fn raise_parts<S: LineStore>(before: &Prefix<S>, code: u8, second: u32, a: Line, l: Line) -> bool
    ensures { result ≡ raise_parts (at before.now) code second a l }
{
    let c = before.line(l.c3);
    c.code == code
        && before.raises(l.c4, a.c1, l.c2.into(), c.c1)
        && before.raises(l.c5, a.c2, second, c.c2)
}

fn raise_arrow<S: LineStore>(before: &Prefix<S>, a: Line, l: Line) -> bool
    ensures { result ≡ raise_arrow (at before.now) a l }
{
    raise_parts(before, code::TYPE_ARROW, l.c2.into(), a, l)
}

fn raise_all<S: LineStore>(before: &Prefix<S>, a: Line, l: Line) -> bool
    ensures { result ≡ raise_all (at before.now) a l }
{
    raise_parts(before, code::TYPE_ALL, u32::from(l.c2) + 1, a, l)
}

fn raise_rec<S: LineStore>(before: &Prefix<S>, a: Line, l: Line) -> bool
    ensures { result ≡ raise_rec (at before.now) a l }
{
    let c = before.line(l.c3);
    let j = u32::from(l.c2);
    c.code == code::TYPE_REC && before.raises(l.c4, a.c1, j + 1, c.c1) && l.c5 == 0
}

pub(crate) fn raise<S: LineStore>(before: &Prefix<S>, l: Line) -> bool
    ensures { result ≡ raise (at before.now) l }
{
    let a = before.line(l.c1);
    match a.code {
        code::TYPE_TOP => raise_top(l),
        code::TYPE_VAR => raise_var(before, a.c1, l),
        code::TYPE_ARROW => raise_arrow(before, a, l),
        code::TYPE_ALL => raise_all(before, a, l),
        code::TYPE_REC => raise_rec(before, a, l),
        _ => false,
    }
}
