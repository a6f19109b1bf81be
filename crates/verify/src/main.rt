// verify [EqualBounds|LeastBound] < page
//
// Takes all of standard input for a page and prints the verdict on it under the rule, EqualBounds if none is named.
// The last line has the answer, the place and the cause, right-justified in 8 columns each.
// The status is 0 exactly if the answer is 0. What keeps it from a verdict is said on standard error, with status 1.
#![tactic(auto)]

use anyhow::bail;
use report::{RuleName, report, verify};
use std::env;
use std::io::Read;
use std::process::ExitCode;
use std::rt::Env;

fn main(rt: HostRuntime) -> ExitCode {
    match run(&rt, rt.stdin()) {
        Ok(true) => ExitCode::SUCCESS,
        Ok(false) => ExitCode::FAILURE,
        Err(error) => {
            let _ = eprintln!(rt; "verify: {error}");
            ExitCode::FAILURE
        }
    }
}

// Whether the page is granted.
fn run(rt: &(impl Env + Print + AllocGlobal), mut page: impl Read + Drop) -> anyhow::Result<bool> {
    let rule = chosen_rule(rt)?;
    let heap = rt.alloc();
    let mut bytes = Vec::new(heap);
    page.read_to_end(&mut bytes)?;
    let verdict = verify(rule, &mut bytes, heap);
    rt.print(report(heap, verdict)?)?;
    Ok(verdict.is_granted())
}

fn chosen_rule(rt: &(impl Env + Alloc)) -> anyhow::Result<RuleName> {
    let mut words = env::args(rt)?.skip(1);
    let Some(word) = words.next() else {
        return Ok(RuleName::EqualBounds);
    };
    if words.next().is_some() {
        bail!("more than one word; one rule is meant, EqualBounds or LeastBound");
    }
    Ok(word.parse()?)
}
