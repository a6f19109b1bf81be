// The whole listing, line by line.

ghost use Rattle.std.specs.Prelude.{[], ◌∷◌, ◌++◌, OnOk};
ghost use Rattle.checker.specs.Checked.{Checked, Tested};
ghost use Rattle.std.specs.Result.{result_err};
ghost use Rattle.checker.specs.Seen.{Holds};

use crate::column::{kinds, zero_past};
use crate::definition::Session;
use crate::follow::follows;
use crate::prefix::Prefix;
use crate::reference::named;
use crate::seen::Seen;
use lines::{Cause, Line, LineStore, Unsound};
use rules::Quantifier;
use std::alloc::Global;

// Whether the line l is without fault after these; else the first cause that holds of it.
fn test<Q: Quantifier, S: LineStore>(
    before: &Prefix<S>,
    seen: &mut Seen,
    session: Session,
    l: Line,
) -> Result<(), Cause>
    requires { Holds seen.old before.now }
    ensures tested { Tested Q.rule before.now session.latest session.env l (result_err result) }
    ensures seen { OnOk result (Holds seen.new (before.now ++ l ∷ [])) }
{
    let kinds = kinds::<Q>(l.code).ok_or(Cause::Code)?;
    if !zero_past(kinds, l) {
        return Err(Cause::Column);
    }
    if !named(before, kinds, l) {
        return Err(Cause::Reference);
    }
    if seen.repeats(before, l) {
        return Err(Cause::Repeated);
    }
    if !follows(before, session, l) {
        return Err(Cause::Unfounded);
    }
    Ok(())
}

pub(crate) fn check_lines<Q: Quantifier, S: LineStore>(
    store: &S,
    heap: Global,
) -> Result<u16, Unsound>
    ensures { Checked Q.rule (S.lines store.now) result }
{
    let count = store.count();
    let mut seen = Seen::new(heap, count);
    let mut session = Session::default();
    // Kept as a loop over numbers: n is how many lines stand before, which makes the prefix and the number of the line.
    for n in 0..count {
        let before = Prefix::new(store, n);
        let l = store.get(n + 1).unwrap_or_default();
        if let Err(cause) = test::<Q, S>(&before, &mut seen, session, l) {
            return Err(Unsound { line: n + 1, cause });
        }
        session = session.after(n + 1, l);
    }
    Ok(count)
}
