// The steps taken, and how many may be.

use crate::halt::Halt;

#[derive(Clone, Copy)]
pub struct Steps {
    pub taken: u32,
    pub most: u32,
}

impl Steps {
    ghost use Rattle.search.specs.Turns.{Paid};

    // One step more, if one is left.
    pub(crate) fn pay(self) -> Result<Steps, Halt>
        ensures { Paid self result }
    {
        if self.taken >= self.most {
            return Err(Halt::StepsSpent);
        }
        Ok(Steps {
            taken: self.taken + 1,
            most: self.most,
        })
    }
}
