// The verdict on a page of lines, and its text.
//
// RuleName            EqualBounds or LeastBound
//   from_str(word)      the rule of this name; UnknownRule for any other word
//   {}                  its name
//   check(store, heap)  what check finds of the lines under the rule: Ok(their count), or the first fault
// rule_named(word)      the same as an Option: none for any other word
//
// Verdict             the rule, the answer, and how many judgments and definitions are concluded
//   is_granted()      whether the answer is 0: the page is a sound listing
//
// verify(rule, bytes, heap)
//     The verdict on a page. Every 46 bytes are taken for a line; an incomplete last place counts, and is out of form.
//     OutOfForm(p)         place p, from 1, is the lowest that is out of form or beyond the first 65,535
//     Granted(count)       every place is a line, and the listing is sound under the rule
//     Unsound(n, cause)    every place is a line; n is the first line at fault, and the cause the first that holds of it
//     Judgments (lines 50 to 79) and definitions (lines 91 and 92) are counted if it is granted, and else 0.
//     It refuses no bytes and leaves them as they were. Want of memory changes no verdict.
//
// report(heap, verdict), and a Verdict by {}
//     Ok(text)             a sentence for people, and as the last line the answer's number, place and cause in 8 columns each
//     Err                  where memory is refused
#![tactic(auto)]

mod check_page;
mod rule_name;
mod tally;
mod text;
mod verdict;

pub use check_page::verify;
pub use rule_name::{RuleName, UnknownRule, rule_named};
pub use text::report;
pub use verdict::Verdict;
