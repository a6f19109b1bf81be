// 91 and 92: Let name<:B = A and let name:A = b, in the session environment.

ghost use Rattle.std.specs.Prelude.{◌≡◌};
ghost use Rattle.checker.specs.Decide.{at, define_type, define_term, latest_after, env_after};

use crate::prefix::Prefix;
use lines::{Line, LineStore, code};

// The latest definition and the session environment; 0 where there is none.
// Kept as plain numbers: each is compared with a column, in which 0 stands for none as well.
#[derive(Clone, Copy, Default)]
pub(crate) struct Session {
    pub latest: u16,
    pub env: u16,
}

impl Session {
    // The session after line n, which is l.
    pub(crate) fn after(self, n: u16, l: Line) -> Session
        ensures latest { result.latest ≡ latest_after self.latest n l }
        ensures env { result.env ≡ env_after self.env n l }
    {
        match l.code {
            code::LET_TYPE..=code::LET_TERM => Session {
                latest: n,
                env: l.c5,
            },
            code::ENV_EMPTY => Session { env: n, ..self },
            _ => self,
        }
    }
}

pub(crate) fn define_type<S: LineStore>(before: &Prefix<S>, session: Session, l: Line) -> bool
    ensures { result ≡ define_type (at before.now) session.latest session.env l }
{
    session.env != 0
        && l.c6 == session.latest
        && l.c5 == session.env
        && before.is_sub(l.c4, session.env, l.c3, l.c2)
}

pub(crate) fn define_term<S: LineStore>(before: &Prefix<S>, session: Session, l: Line) -> bool
    ensures { result ≡ define_term (at before.now) session.latest session.env l }
{
    session.env != 0
        && l.c6 == session.latest
        && before.has_type(l.c4, session.env, l.c3, l.c2)
        && before.binds_term(l.c5, session.env, l.c2)
}
