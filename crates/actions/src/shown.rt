// What a line says, if it is a type's or an environment's.

ghost use Rattle.std.specs.Prelude.{◌≡◌};
ghost use Rattle.rules.specs.Statements.{statement, said};
ghost use Rattle.judge.specs.Plans.{as_type, as_env};
ghost use Rattle.actions.specs.Actions.{type_shown, env_shown};

use lines::{Line, LineStore, code};

#[derive(Clone, Copy)]
pub(crate) enum TypeLine {
    Top,
    Var(u16),
    Arrow(u16, u16),
    All(u16, u16),
    Rec(u16),
}

#[derive(Clone, Copy)]
pub(crate) enum EnvLine {
    Empty,
    WithTerm(u16, u16),
    WithType(u16, u16),
}

impl TypeLine {
    pub(crate) fn of(line: Line) -> Option<TypeLine>
        ensures { type_shown result ≡ as_type (statement line) }
    {
        match line.code {
            code::TYPE_TOP => Some(TypeLine::Top),
            code::TYPE_VAR => Some(TypeLine::Var(line.c1)),
            code::TYPE_ARROW => Some(TypeLine::Arrow(line.c1, line.c2)),
            code::TYPE_ALL => Some(TypeLine::All(line.c1, line.c2)),
            code::TYPE_REC => Some(TypeLine::Rec(line.c1)),
            _ => None,
        }
    }
}

impl EnvLine {
    pub(crate) fn of(line: Line) -> Option<EnvLine>
        ensures { env_shown result ≡ as_env (statement line) }
    {
        match line.code {
            code::ENV_EMPTY => Some(EnvLine::Empty),
            code::ENV_TERM => Some(EnvLine::WithTerm(line.c1, line.c2)),
            code::ENV_TYPE => Some(EnvLine::WithType(line.c1, line.c2)),
            _ => None,
        }
    }
}

pub(crate) fn type_at<S: LineStore>(store: &S, n: u16) -> Option<TypeLine>
    ensures { type_shown result ≡ as_type (said (S.lines store.now) n) }
{
    TypeLine::of(store.get(n)?)
}

pub(crate) fn env_at<S: LineStore>(store: &S, n: u16) -> Option<EnvLine>
    ensures { env_shown result ≡ as_env (said (S.lines store.now) n) }
{
    EnvLine::of(store.get(n)?)
}
