// Causes 1 and 2: the code is admitted, and the columns past its own are 0.

ghost use Rattle.std.specs.Prelude.{◌≡◌, ◌↔◌, IsTrue, IsSome, IfSome, option_copied};
ghost use Rattle.checker.specs.Columns.{row, admits, known, kinds, zero_past};

use lines::{Line, code};
use rules::{AllCode, Quantifier};

// What a column holds: any number, or that of an earlier line of this kind. A premise or a definition may be 0, for none.
#[derive(Clone, Copy, PartialEq, Eq, Debug)]
pub(crate) enum Kind {
    Number,
    Type,
    Term,
    Env,
    Name,
    Premise,
    Definition,
}

// The table, a row a code: what the columns of a line hold.
fn row(code: u8) -> Option<&'static [Kind]>
    ensures { option_copied result ≡ row code }
{
    use Kind::{Definition, Env, Name, Number, Premise, Term, Type};

    Some(match code {
        code::TYPE_TOP => &[],
        code::TYPE_VAR => &[Number],
        code::TYPE_ARROW..=code::TYPE_ALL => &[Type, Type],
        code::TYPE_REC => &[Type],
        code::TERM_TOP => &[],
        code::TERM_VAR => &[Number],
        code::TERM_FUN => &[Type, Term],
        code::TERM_APPL => &[Term, Term],
        code::TERM_FUN2 => &[Type, Term],
        code::TERM_APPL2 => &[Term, Type],
        code::TERM_FOLD => &[Type, Term],
        code::TERM_UNFOLD => &[Term],
        code::TERM_REC => &[Type, Term],
        code::ENV_EMPTY => &[],
        code::ENV_TERM..=code::ENV_TYPE => &[Env, Type],
        code::RAISE => &[Type, Number, Type, Premise, Premise],
        code::PUT => &[Type, Number, Type, Type, Premise, Premise, Premise],
        code::BOUND..=code::TYPING => &[Env, Number, Type, Premise, Premise],
        code::IS_ENV => &[Env, Premise],
        code::IS_TYPE => &[Env, Type, Premise, Premise],
        code::SUB_REFL..=code::SUB_ALL_LEAST => &[Env, Type, Type, Premise, Premise],
        code::HAS_SUBSUMED..=code::HAS_REC => &[Env, Term, Type, Premise, Premise, Premise],
        code::NAME => &[Number; 7],
        code::LET_TYPE => &[Name, Type, Type, Premise, Env, Definition],
        code::LET_TERM => &[Name, Type, Term, Premise, Env, Definition],
        _ => return None,
    })
}

// Whether the rule admits the code. It is asked only of the two for All.
fn admits<Q: Quantifier>(code: u8) -> bool
    ensures { result ≡ admits Q.rule code }
{
    match code {
        code::SUB_ALL_EQUAL => Q::admits(AllCode::Equal),
        code::SUB_ALL_LEAST => Q::admits(AllCode::Least),
        _ => true,
    }
}

// What the columns of a line of this code hold; none if the code is not in the table or not admitted.
pub(crate) fn kinds<Q: Quantifier>(code: u8) -> Option<&'static [Kind]>
    ensures known { IsSome result ↔ IsTrue (known Q.rule code) }
    ensures kinds { IfSome result (λ ks. ks.now ≡ kinds code) }
{
    if admits::<Q>(code) { row(code) } else { None }
}

// Whether the columns past these are 0.
pub(crate) fn zero_past(kinds: &[Kind], l: Line) -> bool
    ensures { result ≡ zero_past kinds.now l }
{
    l.columns().iter().skip(kinds.len()).all(|&n| n == 0)
}
