// What the plan of a goal was told so far: of a premise its line and its result, of a line that was laid its number.

// A line that stands, and what is found out by it.
#[derive(Clone, Copy)]
pub struct Found {
    pub line: u16,
    pub result: u16,
}

// Kept as a variant for each number of answers: no plan is told more than five.
#[derive(Clone, Copy)]
pub enum Told {
    Nothing,
    One(Found),
    Two(Found, Found),
    Three(Found, Found, Found),
    Four(Found, Found, Found, Found),
    Five(Found, Found, Found, Found, Found),
}

impl Told {
    ghost use Rattle.std.specs.Prelude.{◌≡◌, ◌++◌, ◌∷◌, []};
    ghost use Rattle.actions.specs.Actions.{pair, answers, Spare};

    // One answer more, if there is room.
    pub fn and(self, found: Found) -> Told
        ensures { Spare self → answers result ≡ answers self ++ pair found ∷ [] }
    {
        match self {
            Told::Nothing => Told::One(found),
            Told::One(a) => Told::Two(a, found),
            Told::Two(a, b) => Told::Three(a, b, found),
            Told::Three(a, b, c) => Told::Four(a, b, c, found),
            Told::Four(a, b, c, d) => Told::Five(a, b, c, d, found),
            Told::Five(..) => self,
        }
    }
}
