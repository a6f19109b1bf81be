// Why no line could be put.

ghost use Rattle.std.specs.Prelude.{◌≡◌};
ghost use Rattle.search.specs.declared.fault.JudgeFault.TheVariants.{Store as of_store};

use lines::StoreFault;

#[derive(Clone, Copy, PartialEq, Eq, Debug)]
pub enum JudgeFault {
    // the store refused it
    Store(StoreFault),
    // a number would pass 65,535
    Number,
}

impl From<StoreFault> for JudgeFault {
    ghost from_gives = { λ fault given. given ≡ of_store fault };

    fn from(fault: StoreFault) -> JudgeFault {
        JudgeFault::Store(fault)
    }
}
