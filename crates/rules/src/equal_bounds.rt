// Equal bounds, the bodies compared under them (65).

ghost use Rattle.std.specs.Prelude.{◌≡◌};
ghost use Rattle.rules.specs.Quantifiers.{equal_bounds};
ghost use Rattle.rules.specs.declared.all_code.AllCode.TheVariants.{Equal};
ghost use Rattle.rules.specs.LawsLemmas.{chains_equal, instances_equal, bodies_equal, admitted_equal};

use crate::all_code::AllCode;
use crate::quantifier::Quantifier;

#[derive(Clone, Copy, PartialEq, Eq, Debug)]
pub struct EqualBounds;

impl Quantifier for EqualBounds {
    ghost rule = { equal_bounds };

    ghost chains = { chains_equal };

    ghost instances = { instances_equal };

    ghost bodies = { bodies_equal };

    ghost admitted = { admitted_equal };

    fn code() -> AllCode
        ensures { result ≡ Equal }
    {
        AllCode::Equal // 65
    }

    fn admits(code: AllCode) -> bool
        ensures { result ≡ equal_bounds.admits code }
    {
        match code {
            AllCode::Equal => true,
            AllCode::Least => false,
        }
    }
}
