// A quantifier rule: when All(X<:A)B <: All(X<:C)D. Its own code and the codes that it admits are its whole meaning.

ghost use Rattle.std.specs.Prelude.{◌≡◌};
ghost use Rattle.rules.specs.Laws.{Chains, Instances, Bodies, Admitted};
ghost use Rattle.rules.specs.Quantifiers.{Rule, bounds, bodies_under};

use crate::all_code::{AllCode, BodyBound, Bounds};

// Kept as two types with an implementation each: EqualBounds and LeastBound are the instances of this trait, and prove its laws.
pub trait Quantifier {
    ghost rule: { Rule };

    // The rule's own code.
    fn code() -> AllCode
        ensures { result ≡ rule.own };

    // Whether a sound listing may hold lines of the code.
    fn admits(code: AllCode) -> bool
        ensures { result ≡ rule.admits code };

    // The own code's condition on the bounds.
    fn bounds() -> Bounds
        ensures { result ≡ bounds rule.own }
    {
        Self::code().bounds()
    }

    // The bound under which the own code compares the bodies.
    fn body_bound() -> BodyBound
        ensures { result ≡ bodies_under rule.own }
    {
        Self::code().body_bound()
    }

    // The laws, over the judge's tries; each implementation proves them.
    ghost chains: { Chains rule };

    ghost instances: { Instances rule };

    ghost bodies: { Bodies rule };

    ghost admitted: { Admitted rule };
}
