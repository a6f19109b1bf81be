// Why the search ends with no line.

ghost use Rattle.std.specs.Prelude.{◌≡◌};
ghost use Rattle.search.specs.declared.halt.Halt.TheVariants.{Fault as by_fault};

use crate::fault::JudgeFault;

#[derive(Clone, Copy, PartialEq, Eq, Debug)]
pub enum Halt {
    // 1: what is sought has no derivation
    Fails,
    // 10: the next step would exceed the count given
    StepsSpent,
    // 11: no goal place is free
    GoalsFull,
    // 12: a line could not be put
    Fault(JudgeFault),
}

impl From<JudgeFault> for Halt {
    ghost from_gives = { λ fault given. given ≡ by_fault fault };

    fn from(fault: JudgeFault) -> Halt {
        Halt::Fault(fault)
    }
}
