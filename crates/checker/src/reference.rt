// Cause 3: each line that is named is earlier and of its kind.

ghost use Rattle.std.specs.Prelude.{◌≡◌};
ghost use Rattle.checker.specs.Columns.{fits, named};
ghost use Rattle.checker.specs.Decide.{at};

use crate::column::Kind;
use crate::prefix::Prefix;
use lines::{Line, LineStore, code};

// Whether n may stand in a column of this kind.
fn fits<S: LineStore>(before: &Prefix<S>, kind: Kind, n: u16) -> bool
    ensures { result ≡ fits (at before.now) kind n }
{
    if kind == Kind::Number {
        return true;
    }
    let code = before.line(n).code;
    match kind {
        Kind::Number => true,
        Kind::Type => matches!(code, code::TYPE_TOP..=code::TYPE_REC),
        Kind::Term => matches!(code, code::TERM_TOP..=code::TERM_REC),
        Kind::Env => matches!(code, code::ENV_EMPTY..=code::ENV_TYPE),
        Kind::Name => code == code::NAME,
        Kind::Premise => n == 0 || matches!(code, code::RAISE..=code::HAS_REC),
        Kind::Definition => n == 0 || matches!(code, code::LET_TYPE..=code::LET_TERM),
    }
}

pub(crate) fn named<S: LineStore>(before: &Prefix<S>, kinds: &[Kind], l: Line) -> bool
    ensures { result ≡ named (at before.now) kinds.now l }
{
    kinds
        .iter()
        .zip(l.columns().iter())
        .all(|(&kind, &n)| fits(before, kind, n))
}
