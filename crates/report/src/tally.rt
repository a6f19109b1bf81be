// What the lines of a sound listing conclude.

ghost use Rattle.report.specs.Verdicts.{coded_between};
ghost use Rattle.std.specs.Prelude.{◌≡◌};

use lines::{LineStore, code};

// How many lines are judgments (50 to 79), and how many definitions (91 and 92).
#[derive(Clone, Copy, Default)]
pub(crate) struct Tally {
    pub judgments: u16,
    pub definitions: u16,
}

impl Tally {
    pub(crate) fn of<S: LineStore>(store: &S) -> Tally
        ensures judgments { result.judgments ≡ coded_between 50 79 (S.lines store.now) }
        ensures definitions { result.definitions ≡ coded_between 91 92 (S.lines store.now) }
    {
        let mut tally = Tally::default();
        for line in store.iter() {
            match line.code {
                code::IS_ENV..=code::HAS_REC => tally.judgments += 1,
                code::LET_TYPE..=code::LET_TERM => tally.definitions += 1,
                _ => {}
            }
        }
        tally
    }
}
