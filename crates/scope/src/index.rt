// All that is in scope, on the heap.

ghost use Rattle.std.specs.Prelude.{◌≡◌, ℕ, ◌+◌, ◌<◌, ◌^◌, ◌-◌, List, [], ◌∷◌, length, IfOk, OnOk};
ghost use Rattle.scope.specs.Definitions.{defined_in};
ghost use Rattle.scope.specs.Index.{Holds};
ghost use Rattle.scope.specs.Resolved.{past, in_listing};
ghost use Rattle.scope.specs.Scope.{InScope, variables, define};
ghost use Rattle.std.specs.List.{fold};

use crate::definition::name_given;
use crate::terms::Terms;
use crate::types::Types;
use lines::{Line, LineStore, code};
use std::alloc::{AllocError, Global};
use syntax::Node;

#[derive(Drop)]
pub(crate) struct Index {
    pub types: Types,
    pub terms: Terms,
}

impl Index {
    // What the definitions of the listing give, in one pass.
    pub(crate) fn new<S: LineStore>(store: &S, heap: Global) -> Result<Index, AllocError>
        ensures { IfOk result (λ index. Holds index (in_listing (S.lines store.now))) }
    {
        let mut index = Index {
            types: Types::new(heap),
            terms: Terms::new(heap),
        };
        for line in store.iter() {
            index.define(store, line)?;
        }
        Ok(index)
    }

    // What is in scope after line l of the listing.
    fn define<S: LineStore>(&mut self, store: &S, l: Line) -> Result<(), AllocError>
        ensures { OnOk result ((s : InScope ℕ) → length s.terms < 2 ^ 64 - 1 → Holds self.old s → Holds self.new (fold define s (defined_in (S.lines store.now) l))) }
    {
        match l.code {
            code::LET_TYPE => match name_given(store, l) {
                Some(name) => self.types.define(name, l.c3),
                None => Ok(()),
            },
            code::LET_TERM => match name_given(store, l) {
                Some(name) => self.terms.bind(name),
                None => {
                    self.terms.bind_unnamed();
                    Ok(())
                }
            },
            _ => Ok(()),
        }
    }

    // What is in scope behind this node.
    pub(crate) fn pass(&mut self, node: Node) -> Result<(), AllocError>
        ensures { OnOk result ((s : InScope ℕ) → variables s.types < 2 ^ 64 - 1 → length s.terms < 2 ^ 64 - 1 → Holds self.old s → Holds self.new (past s node)) }
    {
        match node {
            Node::TypeBinding { name, .. } => self.types.bind(name),
            Node::TermBinding { name, .. } => self.terms.bind(name),
            _ => Ok(()),
        }
    }
}
