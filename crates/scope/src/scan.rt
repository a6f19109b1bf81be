// What a name means where there is no memory: what stands in front of it is read backwards, the nodes of its tree and then the listing.

ghost use Rattle.std.specs.Prelude.{◌≡◌};
ghost use Rattle.std.specs.Option.{option_map};
ghost use Rattle.scope.specs.Index.{meaning_shown};
ghost use Rattle.scope.specs.Resolved.{past_all, in_listing};
ghost use Rattle.scope.specs.Scope.{meaning, number, stands_for};

use crate::definition::name_given;
use crate::types::Meaning;
use lexer::Name;
use lines::{LineStore, code};
use syntax::Node;

// The line of the type that the latest definition of this name gives.
fn type_in_listing<S: LineStore>(store: &S, name: Name) -> Option<u16>
    ensures { option_map stands_for result ≡ meaning (in_listing (S.lines store.now)).types name }
{
    let mut n = store.count();
    while let Some(l) = store.get(n) {
        if l.code == code::LET_TYPE && name_given(store, l) == Some(name) {
            return Some(l.c3);
        }
        n -= 1;
    }
    None
}

// How many definitions of terms there are from the latest one of this name on.
fn term_in_listing<S: LineStore>(store: &S, name: Name) -> Option<u16>
    ensures { result ≡ number (in_listing (S.lines store.now)).terms name }
{
    let mut n = store.count();
    let mut passed: u16 = 0;
    while let Some(l) = store.get(n) {
        if l.code == code::LET_TERM {
            passed += 1;
            if name_given(store, l) == Some(name) {
                return Some(passed);
            }
        }
        n -= 1;
    }
    None
}

pub(crate) fn meaning<S: LineStore>(store: &S, before: &[Node], name: Name) -> Option<Meaning>
    ensures { meaning_shown result ≡ meaning (past_all (in_listing (S.lines store.now)) before.now).types name }
{
    let mut rest = before;
    let mut passed: usize = 0;
    while let Some((node, front)) = rest.split_last() {
        if let Node::TypeBinding { name: bound, .. } = *node {
            passed += 1;
            if bound == name {
                return Some(Meaning::Variable(passed));
            }
        }
        rest = front;
    }
    type_in_listing(store, name).map(Meaning::Line)
}

pub(crate) fn number<S: LineStore>(store: &S, before: &[Node], name: Name) -> Option<usize>
    ensures { result ≡ number (past_all (in_listing (S.lines store.now)) before.now).terms name }
{
    let mut rest = before;
    let mut passed: usize = 0;
    while let Some((node, front)) = rest.split_last() {
        if let Node::TermBinding { name: bound, .. } = *node {
            passed += 1;
            if bound == name {
                return Some(passed);
            }
        }
        rest = front;
    }
    let farther = term_in_listing(store, name)?;
    Some(passed + usize::from(farther))
}
