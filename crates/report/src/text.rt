// The text of a verdict.

ghost use Rattle.report.specs.Report.{finding_text, last_line, reported};
ghost use Rattle.std.specs.Prelude.{◌≡◌, IfOk, Some, string_bytes};

use crate::verdict::Verdict;
use lines::{Answer, MAX_ROOM};
use std::alloc::{AllocError, Global};
use std::fmt;

// A sentence for people, and the answer's number, place and cause as the last line.
pub fn report(heap: Global, verdict: Verdict) -> Result<String, AllocError>
    ensures { IfOk result (λ t. string_bytes t ≡ reported verdict) }
{
    verdict.to_string(heap)
}

impl fmt::Display for Verdict {
    ghost output = { λ v. Some (reported v) };

    fn fmt<W: fmt::Write>(&self, f: &mut fmt::Formatter<W>) -> fmt::Result {
        let rule = self.rule;
        let finding = Finding(*self);
        let last = LastLine(self.answer);
        write!(f, "{rule}: {finding}.\n{last}")
    }
}

// What was found of the page, without the rule.
#[derive(Clone, Copy)]
struct Finding(Verdict);

impl fmt::Display for Finding {
    ghost output = { λ found. Some (finding_text found.0.answer found.0.judgments found.0.definitions) };

    fn fmt<W: fmt::Write>(&self, f: &mut fmt::Formatter<W>) -> fmt::Result {
        match self.0.answer {
            Answer::Granted(0) => f.write_str("0 lines, nothing is concluded"),
            Answer::Granted(lines) => {
                let Verdict {
                    judgments,
                    definitions,
                    ..
                } = self.0;
                write!(
                    f,
                    "sound. Lines: {lines}, judgments: {judgments}, definitions: {definitions}"
                )
            }
            Answer::Unsound(line, cause) => write!(f, "unsound. Line {line}: {cause}"),
            Answer::OutOfForm(place) if place as usize > MAX_ROOM => {
                f.write_str("no listing. More than 65535 places")
            }
            Answer::OutOfForm(place) => write!(f, "no listing. Place {place} is out of form"),
            _ => f.write_str("no verdict"),
        }
    }
}

// The answer's number, place and cause, in 8 columns each.
#[derive(Clone, Copy)]
struct LastLine(Answer);

impl fmt::Display for LastLine {
    ghost output = { λ last. Some (last_line last.0) };

    fn fmt<W: fmt::Write>(&self, f: &mut fmt::Formatter<W>) -> fmt::Result {
        let (number, place, cause) = (self.0.number(), self.0.place(), self.0.cause());
        writeln!(f, "{number:>8}{place:>8}{cause:>8}")
    }
}
