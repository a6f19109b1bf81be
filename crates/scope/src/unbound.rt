// Why a phrase is refused whose names are looked up.

ghost use Rattle.std.specs.Prelude.{◌≡◌};
ghost use Rattle.lines.specs.declared.answer.Answer.TheVariants.{Unbound as unbound};

use lines::Answer;

// 9: a name is not bound; the first such in the source begins at this byte.
#[derive(Clone, Copy, PartialEq, Eq, Debug)]
pub struct Unbound {
    pub byte: u16,
}

impl From<Unbound> for Answer {
    ghost from_gives = { λ fault answer. answer ≡ unbound fault.byte };

    fn from(fault: Unbound) -> Answer {
        Answer::Unbound(fault.byte)
    }
}
