// The quantifier rules by name.

ghost use Rattle.checker.specs.Checked.{Checked};
ghost use Rattle.report.specs.RuleNames.{rule_text, Named};
ghost use Rattle.std.specs.Prelude.{Some, codes};
ghost use Rattle.std.specs.Result.{result_ok};

use checker::check;
use lines::{LineStore, Unsound};
use rules::{EqualBounds, LeastBound};
use std::alloc::Global;
use std::error::Error;
use std::fmt;
use std::str::FromStr;

#[derive(Clone, Copy, PartialEq, Eq, Debug)]
pub enum RuleName {
    EqualBounds,
    LeastBound,
}

impl RuleName {
    ghost use Rattle.report.specs.RuleNames.{rule_of};

    // What check finds of the lines under the rule.
    // Kept as a match: a rule is a type whose functions take no value, so that there is nothing for dyn.
    pub fn check<S: LineStore>(self, store: &S, heap: Global) -> Result<u16, Unsound>
        ensures { Checked (rule_of self) (S.lines store.now) result }
    {
        match self {
            RuleName::EqualBounds => check::<EqualBounds, S>(store, heap),
            RuleName::LeastBound => check::<LeastBound, S>(store, heap),
        }
    }
}

// No rule has the name.
#[derive(Clone, Copy, PartialEq, Eq, Debug)]
pub struct UnknownRule;

impl fmt::Display for RuleName {
    ghost output = { λ rule. Some (rule_text rule) };

    fn fmt<W: fmt::Write>(&self, f: &mut fmt::Formatter<W>) -> fmt::Result {
        f.write_str(match self {
            RuleName::EqualBounds => "EqualBounds",
            RuleName::LeastBound => "LeastBound",
        })
    }
}

impl FromStr for RuleName {
    type Err = UnknownRule;

    ghost from_str_gives = { λ word found. Named word (result_ok found) };

    fn from_str(word: &str) -> Result<RuleName, UnknownRule> {
        match word {
            "EqualBounds" => Ok(RuleName::EqualBounds),
            "LeastBound" => Ok(RuleName::LeastBound),
            _ => Err(UnknownRule),
        }
    }
}

// The rule of this name, if there is one.
pub fn rule_named(word: &str) -> Option<RuleName>
    ensures { Named word.now result }
{
    word.parse().ok()
}

impl fmt::Display for UnknownRule {
    ghost output = { λ _. Some (codes "no rule has that name; the rules are EqualBounds and LeastBound") };

    fn fmt<W: fmt::Write>(&self, f: &mut fmt::Formatter<W>) -> fmt::Result {
        f.write_str("no rule has that name; the rules are EqualBounds and LeastBound")
    }
}

impl Error for UnknownRule {}
