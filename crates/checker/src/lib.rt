// The checker: whether a listing is sound under a quantifier rule.
//
//     check::<Q, S>(&store, heap)   Ok(count) exactly if the lines of the store are sound under the rule Q,
//                                   else Unsound { line, cause }: the first line at fault and the first cause that holds of it.
//                                   It asks nothing, answers whatever stands in the store, and changes nothing. Memory from the heap
//                                   makes it faster; where it is refused the answer is the same.
#![tactic(auto)]

ghost use Rattle.checker.specs.Checked.{Checked};

use copy::{check_records, copied};
use lines::{LineStore, Unsound};
use listing::check_lines;
use rules::Quantifier;
use std::alloc::Global;

mod column;
mod copy;
mod definition;
mod follow;
mod formed;
mod index;
mod listing;
mod name;
mod prefix;
mod put;
mod raise;
mod reference;
mod seen;
mod subtype;
mod typed;
mod variable;

pub fn check<Q: Quantifier, S: LineStore>(store: &S, heap: Global) -> Result<u16, Unsound>
    ensures { Checked Q.rule (S.lines store.now) result }
{
    match copied(store, heap) {
        Ok(mut records) => check_records::<Q>(&mut records, heap),
        Err(_) => check_lines::<Q, S>(store, heap),
    }
}
