// The node that stands in place of a name: a variable with its number, or the line of a defined type.

ghost use Rattle.std.specs.Prelude.{◌≡◌};
ghost use Rattle.scope.specs.Index.{Tells, meaning_shown, node_shown};
ghost use Rattle.scope.specs.Resolved.{resolved_node, type_node, term_node, past_all, in_listing};

use crate::names::Names;
use crate::types::Meaning;
use crate::unbound::Unbound;
use lines::LineStore;
use syntax::Node;

fn type_node(byte: u16, inside: usize, meaning: Option<Meaning>) -> Result<Node, Unbound>
    ensures { node_shown result ≡ type_node byte inside (meaning_shown meaning) }
{
    match meaning {
        Some(Meaning::Variable(k)) => Ok(Node::TypeVar {
            number: inside.saturating_add(k),
        }),
        Some(Meaning::Line(line)) => Ok(Node::TypeLine { line }),
        None => Err(Unbound { byte }),
    }
}

fn term_node(byte: u16, inside: usize, number: Option<usize>) -> Result<Node, Unbound>
    ensures { node_shown result ≡ term_node byte inside number }
{
    match number {
        Some(k) => Ok(Node::TermVar {
            byte,
            number: inside.saturating_add(k),
        }),
        None => Err(Unbound { byte }),
    }
}

pub(crate) fn resolved<S: LineStore>(
    store: &S,
    names: &Names,
    before: &[Node],
    node: Node,
) -> Result<Node, Unbound>
    requires { Tells names.now (past_all (in_listing (S.lines store.now)) before.now) }
    ensures { node_shown result ≡ resolved_node (past_all (in_listing (S.lines store.now)) before.now) node }
{
    match node {
        Node::TypeName { byte, name, inside } => {
            type_node(byte, inside, names.meaning(store, before, name))
        }
        Node::TermName { byte, name, inside } => {
            term_node(byte, inside, names.number(store, before, name))
        }
        _ => Ok(node),
    }
}
