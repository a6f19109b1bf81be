// 60 to 66: A <: B in E. Columns E, A, B and two premises.

ghost use Rattle.std.specs.Prelude.{◌≡◌};
ghost use Rattle.checker.specs.Decide.{at, subtype, sub_refl, sub_trans, sub_var, sub_top, sub_arrow, sub_all_equal, sub_all_least};

use crate::prefix::Prefix;
use lines::{Line, LineStore, code};

fn sub_refl<S: LineStore>(before: &Prefix<S>, l: Line) -> bool
    ensures { result ≡ sub_refl (at before.now) l }
{
    l.c2 == l.c3 && before.is_type(l.c4, l.c1, l.c2) && l.c5 == 0
}

fn sub_trans<S: LineStore>(before: &Prefix<S>, l: Line) -> bool
    ensures { result ≡ sub_trans (at before.now) l }
{
    let middle = before.line(l.c4).c3;
    before.is_sub(l.c4, l.c1, l.c2, middle) && before.is_sub(l.c5, l.c1, middle, l.c3)
}

fn sub_var<S: LineStore>(before: &Prefix<S>, l: Line) -> bool
    ensures { result ≡ sub_var (at before.now) l }
{
    let a = before.line(l.c2);
    a.code == code::TYPE_VAR && before.is_env(l.c4, l.c1) && before.bound_is(l.c5, l.c1, a.c1, l.c3)
}

fn sub_top<S: LineStore>(before: &Prefix<S>, l: Line) -> bool
    ensures { result ≡ sub_top (at before.now) l }
{
    before.line(l.c3).code == code::TYPE_TOP && before.is_type(l.c4, l.c1, l.c2) && l.c5 == 0
}

fn sub_arrow<S: LineStore>(before: &Prefix<S>, l: Line) -> bool
    ensures { result ≡ sub_arrow (at before.now) l }
{
    let a = before.line(l.c2);
    let b = before.line(l.c3);
    a.code == code::TYPE_ARROW
        && b.code == code::TYPE_ARROW
        && before.is_sub(l.c4, l.c1, b.c1, a.c1)
        && before.is_sub(l.c5, l.c1, a.c2, b.c2)
}

fn sub_all_equal<S: LineStore>(before: &Prefix<S>, l: Line) -> bool
    ensures { result ≡ sub_all_equal (at before.now) l }
{
    let a = before.line(l.c2);
    let b = before.line(l.c3);
    let f = before.line(l.c4).c1;
    a.code == code::TYPE_ALL
        && b.code == code::TYPE_ALL
        && a.c1 == b.c1
        && before.is_sub(l.c4, f, a.c2, b.c2)
        && before.binds_type(f, l.c1, a.c1)
        && l.c5 == 0
}

fn sub_all_least<S: LineStore>(before: &Prefix<S>, l: Line) -> bool
    ensures { result ≡ sub_all_least (at before.now) l }
{
    let a = before.line(l.c2);
    let b = before.line(l.c3);
    let f = before.line(l.c5).c1;
    a.code == code::TYPE_ALL
        && b.code == code::TYPE_ALL
        && before.is_sub(l.c4, l.c1, b.c1, a.c1)
        && before.is_sub(l.c5, f, a.c2, b.c2)
        && before.binds_type(f, l.c1, b.c1)
}

pub(crate) fn subtype<S: LineStore>(before: &Prefix<S>, l: Line) -> bool
    ensures { result ≡ subtype (at before.now) l }
{
    match l.code {
        code::SUB_REFL => sub_refl(before, l),
        code::SUB_TRANS => sub_trans(before, l),
        code::SUB_VAR => sub_var(before, l),
        code::SUB_TOP => sub_top(before, l),
        code::SUB_ARROW => sub_arrow(before, l),
        code::SUB_ALL_EQUAL => sub_all_equal(before, l),
        code::SUB_ALL_LEAST => sub_all_least(before, l),
        _ => false,
    }
}
