// The definitions of a listing: the names that its lines 91 and 92 give.

ghost use Rattle.std.specs.Prelude.{◌≡◌};
ghost use Rattle.scope.specs.Definitions.{name_given};

use lexer::Name;
use lines::{Line, LineStore};

// The name of a definition is on the line that its column 1 names, whatever line that is.
pub(crate) fn name_given<S: LineStore>(store: &S, l: Line) -> Option<Name>
    ensures { result ≡ name_given (S.lines store.now) l }
{
    let line = store.get(l.c1)?;
    Some(Name::from_columns(line.columns()))
}
