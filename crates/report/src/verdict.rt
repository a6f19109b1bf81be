// What the checker finds of a page.

ghost use Rattle.lines.specs.Answers.{number};
ghost use Rattle.std.specs.Prelude.{◌≡◌, ◌==◌};

use crate::rule_name::RuleName;
use lines::Answer;

// The answer under a rule; how many judgments and definitions a sound listing concludes.
// Kept as two counts that are 0 for every other answer, and no Option: that is what is concluded then, and callers read the fields.
#[derive(Clone, Copy, PartialEq, Eq, Debug)]
pub struct Verdict {
    pub rule: RuleName,
    pub answer: Answer,
    pub judgments: u16,
    pub definitions: u16,
}

impl Verdict {
    // Whether the answer is 0: the listing is sound.
    pub fn is_granted(self) -> bool
        ensures { result ≡ (number self.answer == 0) }
    {
        matches!(self.answer, Answer::Granted(_))
    }
}
