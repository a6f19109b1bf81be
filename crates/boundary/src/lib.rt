// The checker over bytes and records, with its answer in one number: what the static library offers to C and Rust.
//
//     check_page(heap, bytes, rule)
//         the bytes as a page: every 46 of them are taken for a line, an incomplete last place too; then the listing is checked
//     check_table(heap, records, rule)
//         the records as a listing
//
// rule: 0 for EqualBounds, any other number for LeastBound.
// The result is answer * 2^40 + place * 2^8 + cause: the answer is 0 for a sound listing, 13 for an unsound one, and 14 for a page with a
// place out of form or more than 65,535 lines. check_page leaves the bytes as they were; of the records check_table promises nothing.
#![tactic(auto)]

ghost use Rattle.std.specs.Prelude.{◌≡◌, ◌≤◌};
ghost use Rattle.boundary.specs.Packed.{packed, numbered_rule, OnPage, OnTable};

use lines::{Answer, Line};
use report::{RuleName, verify};
use std::alloc::Global;
use tables::LineTable;

// Kept as numbers, here and below: the C interface has the answer as a u64 and the rule as a u8.
fn pack(answer: Answer) -> u64
    ensures { result ≡ packed answer }
{
    (u64::from(answer.number()) << 40)
        + (u64::from(answer.place()) << 8)
        + u64::from(answer.cause())
}

fn rule_numbered(rule: u8) -> RuleName
    ensures { result ≡ numbered_rule rule }
{
    match rule {
        0 => RuleName::EqualBounds,
        _ => RuleName::LeastBound,
    }
}

pub fn check_page(heap: Global, bytes: &mut [u8], rule: u8) -> u64
    ensures answer { OnPage rule bytes.old result }
    ensures bytes { bytes.new ≡ bytes.old }
{
    pack(verify(rule_numbered(rule), bytes, heap).answer)
}

pub fn check_table(heap: Global, records: &mut [Line], rule: u8) -> u64
    ensures { OnTable rule records.old result }
{
    let n = records.len();
    let mut table = LineTable::new(records);
    match table.adopt(n) {
        Ok(_) => pack(rule_numbered(rule).check(&table, heap).into()),
        Err(fault) => pack(fault.into()),
    }
}
