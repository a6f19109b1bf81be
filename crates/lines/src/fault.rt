// What a call refuses with, and the answer that each fault is.

ghost use Rattle.std.specs.Prelude.{◌≡◌, MatchResult};
ghost use Rattle.lines.specs.declared.answer.Answer.TheVariants.{Granted, Unsound as unsound, OutOfForm as out_of_form};

use crate::answer::{Answer, Cause};

// The listing is unsound: its first line at fault, and the first cause that holds of it.
#[derive(Clone, Copy, PartialEq, Eq, Debug)]
pub struct Unsound {
    pub line: u16,
    pub cause: Cause,
}

// An adopt was refused: the first place, from 1, that is out of form or beyond the room.
#[derive(Clone, Copy, PartialEq, Eq, Debug)]
pub struct OutOfForm {
    pub place: u32,
}

impl From<Unsound> for Answer {
    ghost from_gives = { λ fault answer. answer ≡ unsound fault.line fault.cause };

    fn from(fault: Unsound) -> Answer {
        Answer::Unsound(fault.line, fault.cause)
    }
}

impl From<OutOfForm> for Answer {
    ghost from_gives = { λ fault answer. answer ≡ out_of_form fault.place };

    fn from(fault: OutOfForm) -> Answer {
        Answer::OutOfForm(fault.place)
    }
}

impl<E: Into<Answer>> From<Result<u16, E>> for Answer {
    ghost from_gives = { λ found answer. MatchResult found (λ n. answer ≡ Granted n) (λ fault. E.converts fault answer) };

    fn from(found: Result<u16, E>) -> Answer {
        match found {
            Ok(n) => Answer::Granted(n),
            Err(fault) => fault.into(),
        }
    }
}
