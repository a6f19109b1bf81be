// The lines of a store copied into memory of their own, where reading one decodes nothing.

ghost use Rattle.std.specs.Prelude.{◌≡◌, ◌≤◌, length, IfOk};
ghost use Rattle.checker.specs.Checked.{Checked};

use crate::listing::check_lines;
use lines::{Line, LineStore, Unsound};
use rules::Quantifier;
use std::alloc::{AllocError, Global};
use tables::LineTable;

pub(crate) fn copied<S: LineStore>(store: &S, heap: Global) -> Result<Vec<Line>, AllocError>
    ensures { IfOk result (λ v. v.items ≡ S.lines store.now) }
{
    // Room for all is asked for first: where there is none, `collect` would try smaller blocks, and copy half the lines into them.
    let mut all = Vec::with_capacity(heap, store.count().into())?;
    all.extend(store.iter())?;
    Ok(all)
}

pub(crate) fn check_records<Q: Quantifier>(
    records: &mut [Line],
    heap: Global,
) -> Result<u16, Unsound>
    requires { length records.old ≤ 65535 }
    ensures { Checked Q.rule records.old result }
{
    let n = records.len();
    let mut table = LineTable::new(records);
    table.adopt(n).unwrap();
    check_lines::<Q, LineTable>(&table, heap)
}
