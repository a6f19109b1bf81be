// The right bound below the left, the bodies compared under the right (66); lines 65 are admitted too.

ghost use Rattle.std.specs.Prelude.{◌≡◌};
ghost use Rattle.rules.specs.Quantifiers.{least_bound};
ghost use Rattle.rules.specs.declared.all_code.AllCode.TheVariants.{Least};
ghost use Rattle.rules.specs.LawsLemmas.{chains_least, instances_least, bodies_least, admitted_least};

use crate::all_code::AllCode;
use crate::quantifier::Quantifier;

#[derive(Clone, Copy, PartialEq, Eq, Debug)]
pub struct LeastBound;

impl Quantifier for LeastBound {
    ghost rule = { least_bound };

    ghost chains = { chains_least };

    ghost instances = { instances_least };

    ghost bodies = { bodies_least };

    ghost admitted = { admitted_least };

    fn code() -> AllCode
        ensures { result ≡ Least }
    {
        AllCode::Least // 66
    }

    fn admits(code: AllCode) -> bool
        ensures { result ≡ least_bound.admits code }
    {
        match code {
            AllCode::Equal => true,
            AllCode::Least => true,
        }
    }
}
