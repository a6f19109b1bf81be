// The rules of F-sub and the quantifier rules behind one interface.
//
//     AllCode              a code that puts one All type below another: Equal (65), Least (66)
//         number()         the code as lines have it
//         bounds()         what a line of it wants of A and C in All(X<:A)B <: All(X<:C)D: Same, or RightBelowLeft
//         body_bound()     under which of them it wants B below D: Left or Right
//     Bounds, BodyBound    what bounds() and body_bound() answer
//
//     Quantifier           a quantifier rule; its own code and the codes that it admits are its whole meaning (the ghost `rule`)
//         code()           its own code, by which it judges
//         admits(code)     whether lines of the code may stand in a listing that is sound under it; its own are
//         bounds()         its own code's condition on the bounds
//         body_bound()     its own code's bound for the bodies
//       Each implementation writes code() and admits(), and proves the laws chains, instances, bodies and admitted.
//     EqualBounds          equal bounds, the bodies below one another under them; admits 65
//     LeastBound           the right bound below the left, the bodies below one another under the right; admits 66 and 65
//
// All calls are total, refuse nothing and change nothing.
#![tactic(auto)]

mod all_code;
mod equal_bounds;
mod least_bound;
mod quantifier;

pub use all_code::{AllCode, BodyBound, Bounds};
pub use equal_bounds::EqualBounds;
pub use least_bound::LeastBound;
pub use quantifier::Quantifier;
