// The codes that put one All type below another, and what a line of each wants of All(X<:A)B <: All(X<:C)D.

ghost use Rattle.std.specs.Prelude.{◌≡◌};
ghost use Rattle.rules.specs.Quantifiers.{all_number, bounds, bodies_under};

use lines::code;

#[derive(Clone, Copy, PartialEq, Eq, Debug)]
pub enum AllCode {
    Equal = code::SUB_ALL_EQUAL as isize,
    Least = code::SUB_ALL_LEAST as isize,
}

// the condition on the bounds A and C
#[derive(Clone, Copy, PartialEq, Eq, Debug)]
pub enum Bounds {
    // A and C are equal
    Same,
    // C is below A
    RightBelowLeft,
}

// the bound under which the bodies B and D are compared
#[derive(Clone, Copy, PartialEq, Eq, Debug)]
pub enum BodyBound {
    Left,
    Right,
}

impl AllCode {
    // The code as lines have it.
    pub fn number(self) -> u8
        ensures { result ≡ all_number self }
    {
        self as u8
    }

    // The condition on the bounds.
    pub fn bounds(self) -> Bounds
        ensures { result ≡ bounds self }
    {
        match self {
            AllCode::Equal => Bounds::Same,
            AllCode::Least => Bounds::RightBelowLeft,
        }
    }

    // The bound under which the bodies are compared.
    pub fn body_bound(self) -> BodyBound
        ensures { result ≡ bodies_under self }
    {
        match self {
            AllCode::Equal => BodyBound::Left,
            AllCode::Least => BodyBound::Right,
        }
    }
}
