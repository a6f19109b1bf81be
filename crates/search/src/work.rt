// A goal that is worked on, and what its plan was told so far.

ghost use Rattle.std.specs.Prelude.{◌≡◌, ◌≤◌, ◌<◌, length};
ghost use Rattle.actions.specs.Actions.{plain_number, answers};

use actions::{Exposing, Found, Goal, Told};

#[derive(Clone, Copy)]
pub struct Work {
    pub(crate) goal: Goal,
    pub(crate) told: Told,
    ghost fits: { plain_number goal ≤ 65535 },
}

// It waits for a premise.
#[derive(Clone, Copy)]
pub struct Wait {
    pub(crate) work: Work,
    ghost spare: { length (answers work.told) < 5 },
}

impl Work {
    ghost use Rattle.actions.specs.Actions.{Terms, sought, Spare, Fits};
    ghost use Rattle.judge.specs.Loop.{fresh, told as with_answer};
    ghost use Rattle.search.specs.Frames.{wait};

    // The goal as it is first sought.
    pub(crate) fn new(goal: Goal) -> Work
        requires { Fits goal }
        ensures { (t : Terms) → wait t result ≡ fresh (sought t goal) }
    {
        Work {
            goal,
            told: Told::Nothing,
        }
    }

    // It goes on with an answer.
    pub(crate) fn and(self, found: Found) -> Work
        requires { Spare self.told }
        ensures { (t : Terms) → wait t result ≡ with_answer (wait t self) found.line found.result }
    {
        Work {
            goal: self.goal,
            told: self.told.and(found),
        }
    }
}

// What stands in a place before a goal does.
impl Default for Wait {
    fn default() -> Wait {
        let work = Work {
            goal: Goal::Env { env: 0 },
            told: Told::Nothing,
        };
        Wait { work }
    }
}
