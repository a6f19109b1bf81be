// What the names of a source mean: when it is read whole, each is looked up in the bindings of its phrase and in the definitions of a listing.
//
//     resolve(&store, &mut nodes, heap)
//               Ok(()): in place of each name that no binder of the source binds stands the number of its variable, or the line of
//               the type that a Let name stands for; no other node is changed.
//               Unbound { byte }: the first such name in the source that nothing binds, by its first byte. The nodes before it
//               are resolved and the others as they were.
//               It asks nothing, answers whatever stands in the store and in the nodes, and changes nothing in the store. Memory
//               from the heap makes it faster; where it is refused the answer and the nodes are the same.
// Unbound       answer 9, by Answer::from.
//
// The nodes are those of a phrase that was read (crate syntax), all of them and in their order. What they are then and which
// name is first is said by `scope` (specs/Scope), a function over the tree of the phrase and the definitions of the listing.
#![tactic(auto)]

ghost use Rattle.std.specs.Prelude.{◌≡◌};
ghost use Rattle.scope.specs.Definitions.{definitions};
ghost use Rattle.scope.specs.Resolved.{Resolved, Scoped, in_listing};
ghost use Rattle.scope.specs.Scope.{scope};
ghost use Rattle.syntax.specs.Layout.{nodes};
ghost use Rattle.syntax.specs.Named.{NamedPhrase};

use lines::LineStore;
use names::Names;
use node::resolved;
use std::alloc::Global;
use syntax::Node;

mod definition;
mod index;
mod names;
mod node;
mod scan;
mod terms;
mod types;
mod unbound;

pub use unbound::Unbound;

// Kept as clauses: the first is what it is for, of the nodes of a phrase, and the second says it of any nodes.
pub fn resolve<S: LineStore>(store: &S, tree: &mut [Node], heap: Global) -> Result<(), Unbound>
    ensures phrase { (p : NamedPhrase) → tree.old ≡ nodes p → Scoped (scope (definitions (S.lines store.now)) p) tree.new result }
    ensures nodes { Resolved (in_listing (S.lines store.now)) tree.old tree.new result }
{
    let mut names = Names::new(store, heap);
    for i in 0..tree.len() {
        let node = tree[i];
        tree[i] = resolved(store, &names, &tree[..i], node)?;
        names.pass(node);
    }
    Ok(())
}
