// What the names mean at a node of a tree: maps on the heap tell, or where memory is refused what stands in front of the node, with the same answer.

ghost use Rattle.std.specs.Prelude.{◌≡◌, ℕ, ◌<◌, ◌^◌, ◌-◌, length};
ghost use Rattle.scope.specs.Index.{Tells, meaning_shown};
ghost use Rattle.scope.specs.Resolved.{past, past_all, in_listing};
ghost use Rattle.scope.specs.Scope.{InScope, variables, meaning, number};

use crate::index::Index;
use crate::scan;
use crate::types::Meaning;
use lexer::Name;
use lines::LineStore;
use std::alloc::Global;
use syntax::Node;

// All that is in scope, or None where memory was refused.
#[derive(Drop)]
pub(crate) struct Names {
    index: Option<Index>,
}

impl Names {
    // The definitions of the listing.
    pub(crate) fn new<S: LineStore>(store: &S, heap: Global) -> Names
        ensures { Tells result (in_listing (S.lines store.now)) }
    {
        Names {
            index: Index::new(store, heap).ok(),
        }
    }

    // What a type's name means behind these nodes.
    pub(crate) fn meaning<S: LineStore>(
        &self,
        store: &S,
        before: &[Node],
        name: Name,
    ) -> Option<Meaning>
        requires { Tells self.now (past_all (in_listing (S.lines store.now)) before.now) }
        ensures { meaning_shown result ≡ meaning (past_all (in_listing (S.lines store.now)) before.now).types name }
    {
        match &self.index {
            Some(index) => index.types.meaning(name),
            None => scan::meaning(store, before, name),
        }
    }

    // The number of the variable that a term's name is behind these nodes.
    pub(crate) fn number<S: LineStore>(
        &self,
        store: &S,
        before: &[Node],
        name: Name,
    ) -> Option<usize>
        requires { Tells self.now (past_all (in_listing (S.lines store.now)) before.now) }
        ensures { result ≡ number (past_all (in_listing (S.lines store.now)) before.now).terms name }
    {
        match &self.index {
            Some(index) => index.terms.number(name),
            None => scan::number(store, before, name),
        }
    }

    // From a node to what is behind it.
    pub(crate) fn pass(&mut self, node: Node)
        ensures { (s : InScope ℕ) → variables s.types < 2 ^ 64 - 1 → length s.terms < 2 ^ 64 - 1 → Tells self.old s → Tells self.new (past s node) }
    {
        if let Some(index) = &mut self.index {
            if index.pass(node).is_err() {
                self.index = None;
            }
        }
    }
}
