// The verdict on a page.

ghost use Rattle.lines.specs.Answers.{number};
ghost use Rattle.std.specs.Prelude.{◌≡◌, ◌≢◌, IfOk, IfErr};
ghost use Rattle.report.specs.RuleNames.{rule_of};
ghost use Rattle.report.specs.Verdicts.{Answered, concluded, listing};

use crate::rule_name::RuleName;
use crate::tally::Tally;
use crate::verdict::Verdict;
use lines::Answer;
use page::{LINE_BYTES, Page};
use std::alloc::Global;

// Takes every place of 46 bytes for a line, an incomplete last one too, and checks the listing under the rule.
pub fn verify(rule: RuleName, bytes: &mut [u8], heap: Global) -> Verdict
    ensures rule { result.rule ≡ rule }
    ensures answer { Answered (rule_of rule) bytes.old result.answer }
    ensures judgments { result.judgments ≡ concluded 50 79 result.answer (listing bytes.old) }
    ensures definitions { result.definitions ≡ concluded 91 92 result.answer (listing bytes.old) }
    ensures bytes { bytes.new ≡ bytes.old }
{
    match sound(rule, bytes, heap) {
        Ok(verdict) => verdict,
        Err(answer) => Verdict {
            rule,
            answer,
            judgments: 0,
            definitions: 0,
        },
    }
}

// The verdict on a sound listing, or what keeps the page from being one.
fn sound(rule: RuleName, bytes: &mut [u8], heap: Global) -> Result<Verdict, Answer>
    ensures rule { IfOk result (λ v. v.rule ≡ rule) }
    ensures answer { IfOk result (λ v. Answered (rule_of rule) bytes.old v.answer) }
    ensures judgments { IfOk result (λ v. v.judgments ≡ concluded 50 79 v.answer (listing bytes.old)) }
    ensures definitions { IfOk result (λ v. v.definitions ≡ concluded 91 92 v.answer (listing bytes.old)) }
    ensures refused { IfErr result (λ answer. Answered (rule_of rule) bytes.old answer × (number answer ≢ 0)) }
    ensures bytes { bytes.new ≡ bytes.old }
{
    let places = bytes.len().div_ceil(LINE_BYTES);
    let mut page = Page::new(bytes);
    page.adopt(places)?;
    let count = rule.check(&page, heap)?;
    let Tally {
        judgments,
        definitions,
    } = Tally::of(&page);
    Ok(Verdict {
        rule,
        answer: Answer::Granted(count),
        judgments,
        definitions,
    })
}
