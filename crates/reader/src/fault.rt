// Why a source is refused.

ghost use Rattle.std.specs.Prelude.{◌≡◌};
ghost use Rattle.reader.specs.Reads.{answer_to};
ghost use Rattle.reader.specs.declared.fault.ReadFault.TheVariants.{Syntax, Unbound as unbound};

use grammar::SyntaxFault;
use lines::Answer;
use scope::Unbound;

#[derive(Clone, Copy, PartialEq, Eq, Debug)]
pub enum ReadFault {
    // 3 to 8: it is no phrase within the limits
    Syntax(SyntaxFault),
    // 9: a name is not bound
    Unbound(Unbound),
}

impl From<SyntaxFault> for ReadFault {
    ghost from_gives = { λ fault given. given ≡ Syntax fault };

    fn from(fault: SyntaxFault) -> ReadFault {
        ReadFault::Syntax(fault)
    }
}

impl From<Unbound> for ReadFault {
    ghost from_gives = { λ fault given. given ≡ unbound fault };

    fn from(fault: Unbound) -> ReadFault {
        ReadFault::Unbound(fault)
    }
}

impl From<ReadFault> for Answer {
    ghost from_gives = { λ fault answer. answer ≡ answer_to fault };

    fn from(fault: ReadFault) -> Answer {
        match fault {
            ReadFault::Syntax(fault) => fault.into(),
            ReadFault::Unbound(fault) => fault.into(),
        }
    }
}
