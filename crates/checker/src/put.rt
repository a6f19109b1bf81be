// 41: C is B with A put for variable j, higher ones lowered by 1. Columns B, j, A, C and a premise for each part;
// under a binder the raising of A stands before the part.

ghost use Rattle.std.specs.Prelude.{◌≡◌};
ghost use Rattle.checker.specs.Decide.{at, put, no_premises, put_top, put_var, put_arrow, put_all, put_rec};

use crate::prefix::Prefix;
use lines::{Line, LineStore, code};

fn no_premises(l: Line) -> bool
    ensures { result ≡ no_premises l }
{
    l.c5 == 0 && l.c6 == 0 && l.c7 == 0
}

fn put_top(l: Line) -> bool
    ensures { result ≡ put_top l }
{
    l.c4 == l.c1 && no_premises(l)
}

fn put_var<S: LineStore>(before: &Prefix<S>, k: u16, l: Line) -> bool
    ensures { result ≡ put_var (at before.now) k l }
{
    if !no_premises(l) {
        return false;
    }
    if k < l.c2 {
        return l.c4 == l.c1;
    }
    if k == l.c2 {
        return l.c4 == l.c3;
    }
    let c = before.line(l.c4);
    c.code == code::TYPE_VAR && c.c1.checked_add(1) == Some(k)
}

fn put_arrow<S: LineStore>(before: &Prefix<S>, b: Line, l: Line) -> bool
    ensures { result ≡ put_arrow (at before.now) b l }
{
    let c = before.line(l.c4);
    let j = u32::from(l.c2);
    c.code == code::TYPE_ARROW
        && before.puts(l.c5, b.c1, j, l.c3, c.c1)
        && before.puts(l.c6, b.c2, j, l.c3, c.c2)
        && l.c7 == 0
}

fn put_all<S: LineStore>(before: &Prefix<S>, b: Line, l: Line) -> bool
    ensures { result ≡ put_all (at before.now) b l }
{
    let c = before.line(l.c4);
    let raised = before.line(l.c6).c3;
    let j = u32::from(l.c2);
    c.code == code::TYPE_ALL
        && before.puts(l.c5, b.c1, j, l.c3, c.c1)
        && before.raises(l.c6, l.c3, 0, raised)
        && before.puts(l.c7, b.c2, j + 1, raised, c.c2)
}

fn put_rec<S: LineStore>(before: &Prefix<S>, b: Line, l: Line) -> bool
    ensures { result ≡ put_rec (at before.now) b l }
{
    let c = before.line(l.c4);
    let raised = before.line(l.c5).c3;
    let j = u32::from(l.c2);
    c.code == code::TYPE_REC
        && before.raises(l.c5, l.c3, 0, raised)
        && before.puts(l.c6, b.c1, j + 1, raised, c.c1)
        && l.c7 == 0
}

pub(crate) fn put<S: LineStore>(before: &Prefix<S>, l: Line) -> bool
    ensures { result ≡ put (at before.now) l }
{
    let b = before.line(l.c1);
    match b.code {
        code::TYPE_TOP => put_top(l),
        code::TYPE_VAR => put_var(before, b.c1, l),
        code::TYPE_ARROW => put_arrow(before, b, l),
        code::TYPE_ALL => put_all(before, b, l),
        code::TYPE_REC => put_rec(before, b, l),
        _ => false,
    }
}
