// 70 to 79: a : A in E. Columns E, a, A and three premises.

ghost use Rattle.std.specs.Prelude.{◌≡◌};
ghost use Rattle.checker.specs.Decide.{at, typed, has_subsumed, has_var, has_top, has_function, has_fun, has_appl, has_fun2, has_appl2, has_fold, has_unfold, has_rec};

use crate::prefix::Prefix;
use lines::{Line, LineStore, code};

fn has_subsumed<S: LineStore>(before: &Prefix<S>, l: Line) -> bool
    ensures { result ≡ has_subsumed (at before.now) l }
{
    let below = before.line(l.c4).c3;
    before.has_type(l.c4, l.c1, l.c2, below) && before.is_sub(l.c5, l.c1, below, l.c3) && l.c6 == 0
}

fn has_var<S: LineStore>(before: &Prefix<S>, l: Line) -> bool
    ensures { result ≡ has_var (at before.now) l }
{
    let a = before.line(l.c2);
    a.code == code::TERM_VAR
        && before.is_env(l.c4, l.c1)
        && before.typing_is(l.c5, l.c1, a.c1, l.c3)
        && l.c6 == 0
}

fn has_top<S: LineStore>(before: &Prefix<S>, l: Line) -> bool
    ensures { result ≡ has_top (at before.now) l }
{
    before.line(l.c2).code == code::TERM_TOP
        && before.line(l.c3).code == code::TYPE_TOP
        && before.is_env(l.c4, l.c1)
        && l.c5 == 0
        && l.c6 == 0
}

// A function of a term or of a type, by the codes of the term, of its type and of the binding.
fn has_function<S: LineStore>(before: &Prefix<S>, term: u8, arrow: u8, binding: u8, l: Line) -> bool
    ensures { result ≡ has_function (at before.now) term arrow binding l }
{
    let a = before.line(l.c2);
    let t = before.line(l.c3);
    let f = before.line(l.c4).c1;
    a.code == term
        && t.code == arrow
        && a.c1 == t.c1
        && before.has_type(l.c4, f, a.c2, t.c2)
        && before.pair(binding, f, l.c1, a.c1)
        && l.c5 == 0
        && l.c6 == 0
}

fn has_fun<S: LineStore>(before: &Prefix<S>, l: Line) -> bool
    ensures { result ≡ has_fun (at before.now) l }
{
    has_function(before, code::TERM_FUN, code::TYPE_ARROW, code::ENV_TERM, l)
}

fn has_appl<S: LineStore>(before: &Prefix<S>, l: Line) -> bool
    ensures { result ≡ has_appl (at before.now) l }
{
    let a = before.line(l.c2);
    let function = before.line(l.c4).c3;
    let t = before.line(function);
    a.code == code::TERM_APPL
        && before.has_type(l.c4, l.c1, a.c1, function)
        && t.code == code::TYPE_ARROW
        && t.c2 == l.c3
        && before.has_type(l.c5, l.c1, a.c2, t.c1)
        && l.c6 == 0
}

fn has_fun2<S: LineStore>(before: &Prefix<S>, l: Line) -> bool
    ensures { result ≡ has_fun2 (at before.now) l }
{
    has_function(before, code::TERM_FUN2, code::TYPE_ALL, code::ENV_TYPE, l)
}

fn has_appl2<S: LineStore>(before: &Prefix<S>, l: Line) -> bool
    ensures { result ≡ has_appl2 (at before.now) l }
{
    let a = before.line(l.c2);
    let function = before.line(l.c4).c3;
    let t = before.line(function);
    a.code == code::TERM_APPL2
        && before.has_type(l.c4, l.c1, a.c1, function)
        && t.code == code::TYPE_ALL
        && before.is_sub(l.c5, l.c1, a.c2, t.c1)
        && before.puts(l.c6, t.c2, 1, a.c2, l.c3)
}

fn has_fold<S: LineStore>(before: &Prefix<S>, l: Line) -> bool
    ensures { result ≡ has_fold (at before.now) l }
{
    let a = before.line(l.c2);
    let t = before.line(l.c3);
    let unfolded = before.line(l.c4).c4;
    a.code == code::TERM_FOLD
        && a.c1 == l.c3
        && t.code == code::TYPE_REC
        && before.puts(l.c4, t.c1, 1, l.c3, unfolded)
        && before.has_type(l.c5, l.c1, a.c2, unfolded)
        && l.c6 == 0
}

fn has_unfold<S: LineStore>(before: &Prefix<S>, l: Line) -> bool
    ensures { result ≡ has_unfold (at before.now) l }
{
    let a = before.line(l.c2);
    let folded = before.line(l.c4).c3;
    let t = before.line(folded);
    a.code == code::TERM_UNFOLD
        && before.has_type(l.c4, l.c1, a.c1, folded)
        && t.code == code::TYPE_REC
        && before.puts(l.c5, t.c1, 1, folded, l.c3)
        && l.c6 == 0
}

fn has_rec<S: LineStore>(before: &Prefix<S>, l: Line) -> bool
    ensures { result ≡ has_rec (at before.now) l }
{
    let a = before.line(l.c2);
    let f = before.line(l.c4).c1;
    a.code == code::TERM_REC
        && a.c1 == l.c3
        && before.has_type(l.c4, f, a.c2, l.c3)
        && before.binds_term(f, l.c1, l.c3)
        && l.c5 == 0
        && l.c6 == 0
}

pub(crate) fn typed<S: LineStore>(before: &Prefix<S>, l: Line) -> bool
    ensures { result ≡ typed (at before.now) l }
{
    match l.code {
        code::HAS_SUBSUMED => has_subsumed(before, l),
        code::HAS_VAR => has_var(before, l),
        code::HAS_TOP => has_top(before, l),
        code::HAS_FUN => has_fun(before, l),
        code::HAS_APPL => has_appl(before, l),
        code::HAS_FUN2 => has_fun2(before, l),
        code::HAS_APPL2 => has_appl2(before, l),
        code::HAS_FOLD => has_fold(before, l),
        code::HAS_UNFOLD => has_unfold(before, l),
        code::HAS_REC => has_rec(before, l),
        _ => false,
    }
}
