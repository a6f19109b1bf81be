// A node as it comes in the tree.

ghost use Rattle.std.specs.Prelude.{◌≡◌};
ghost use Rattle.laying.specs.Goes.{Goes};
ghost use Rattle.laying.specs.Nodes.{opened, node_laid, node_at};
ghost use Rattle.laying.specs.Places.{standing as stands};

use crate::node::lay_node;
use crate::place::LaidTree;
use crate::stand::Laid;
use actions::Statement;
use lines::LineStore;
use search::{JudgeFault, Standing, lay};
use syntax::Node;

// A node, and before it Top if an omitted bound stands there.
pub(crate) fn lay_next<S: LineStore>(
    standing: &Standing,
    store: &mut S,
    opens: bool,
    tree: LaidTree<'_>,
    env: u16,
    node: Node,
) -> Result<Laid, JudgeFault>
    ensures cases { Goes (S.most store.old) (S.lines store.old) (S.lines store.new) (λ k. opened opens (node_laid env (stands tree.entry.places.now) node k)) (node_at (stands tree.entry.places.now)) result }
    ensures room { S.most store.new ≡ S.most store.old }
    ensures kept { S.keeps store.old → S.keeps store.new }
{
    if !opens {
        return lay_node(standing, store, tree, env, node);
    }
    lay(standing, store, Statement::TypeTop)?;
    lay_node(standing, store, tree, env, node)
}
