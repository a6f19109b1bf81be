// The lines of a node, behind those of the nodes before it.

ghost use Rattle.std.specs.Prelude.{◌≡◌};
ghost use Rattle.laying.specs.Goes.{Goes};
ghost use Rattle.actions.specs.Actions.{Terms};
ghost use Rattle.actions.specs.Terms.{placed};
ghost use Rattle.laying.specs.Nodes.{node_laid, node_at, on_line};
ghost use Rattle.laying.specs.Places.{standing as stands};

use crate::place::LaidTree;
use crate::stand::{Laid, stand};
use actions::{Form, Statement, Term, Tree};
use lines::LineStore;
use search::{JudgeFault, Standing, lay};
use syntax::Node;

fn by_line(env: u16, line: u16) -> Laid
    ensures env { result.env ≡ env }
    ensures term { (t : Terms) → placed t result.term ≡ on_line line }
{
    Laid {
        env,
        term: Term {
            byte: 0,
            line,
            form: Form::Top,
        },
    }
}

pub(crate) fn lay_node<S: LineStore>(
    standing: &Standing,
    store: &mut S,
    tree: LaidTree<'_>,
    env: u16,
    node: Node,
) -> Result<Laid, JudgeFault>
    ensures cases { Goes (S.most store.old) (S.lines store.old) (S.lines store.new) (node_laid env (stands tree.entry.places.now) node) (node_at (stands tree.entry.places.now)) result }
    ensures room { S.most store.new ≡ S.most store.old }
    ensures kept { S.keeps store.old → S.keeps store.new }
{
    match node {
        Node::Top => stand(standing, store, env, Statement::TypeTop, 0, Form::Top),
        Node::TypeVar { number } => {
            let k = number as u64;
            stand(standing, store, env, Statement::TypeVar { k }, 0, Form::Top)
        }
        Node::TypeName { .. } => Ok(by_line(env, 0)),
        Node::TermName { .. } => Ok(by_line(env, 0)),
        Node::TypeLine { line } => Ok(by_line(env, line)),
        Node::Arrow { left, right } => {
            let (a, b) = (tree.line(left), tree.line(right));
            stand(
                standing,
                store,
                env,
                Statement::Arrow { a, b },
                0,
                Form::Top,
            )
        }
        Node::All { bound, body } => {
            let (a, b) = (tree.line(bound), tree.line(body));
            stand(standing, store, env, Statement::All { a, b }, 0, Form::Top)
        }
        Node::AllUnbounded { body, .. } => {
            let a = lay(standing, store, Statement::TypeTop)?;
            let b = tree.line(body);
            stand(standing, store, env, Statement::All { a, b }, 0, Form::Top)
        }
        Node::RecType { body } => {
            let b = tree.line(body);
            stand(standing, store, env, Statement::Rec { b }, 0, Form::Top)
        }
        Node::TopTerm { byte } => {
            stand(standing, store, env, Statement::TopTerm, byte, Form::Top)
        }
        Node::TermVar { byte, number } => {
            let k = number as u64;
            let line = lay(standing, store, Statement::TermVar { k })?;
            Ok(Laid {
                env,
                term: Term {
                    byte,
                    line,
                    form: Form::Var { k: k as u16 },
                },
            })
        }
        Node::Fun { byte, domain, body } => {
            let (a, b) = (tree.line(domain), tree.line(body));
            let form = Form::Fun { domain: a, body };
            stand(standing, store, env, Statement::Fun { a, b }, byte, form)
        }
        Node::Appl {
            byte,
            function,
            argument,
        } => {
            let (b, a) = (tree.line(function), tree.line(argument));
            let form = Form::Appl { function, argument };
            stand(standing, store, env, Statement::Appl { b, a }, byte, form)
        }
        Node::Fun2 { byte, bound, body } => {
            let (a, b) = (tree.line(bound), tree.line(body));
            let form = Form::Fun2 { bound: a, body };
            stand(standing, store, env, Statement::Fun2 { a, b }, byte, form)
        }
        Node::Fun2Unbounded { byte, body, .. } => {
            let a = lay(standing, store, Statement::TypeTop)?;
            let b = tree.line(body);
            let form = Form::Fun2 { bound: a, body };
            stand(standing, store, env, Statement::Fun2 { a, b }, byte, form)
        }
        Node::Appl2 {
            byte,
            function,
            argument,
        } => {
            let (b, a) = (tree.line(function), tree.line(argument));
            let form = Form::Appl2 {
                function,
                argument: a,
            };
            stand(standing, store, env, Statement::Appl2 { b, a }, byte, form)
        }
        Node::Fold { byte, to, argument } => {
            let (a, b) = (tree.line(to), tree.line(argument));
            let form = Form::Fold { to: a, argument };
            stand(
                standing,
                store,
                env,
                Statement::FoldTerm { a, b },
                byte,
                form,
            )
        }
        Node::Unfold { byte, argument } => {
            let b = tree.line(argument);
            let form = Form::Unfold { argument };
            stand(
                standing,
                store,
                env,
                Statement::UnfoldTerm { b },
                byte,
                form,
            )
        }
        Node::RecTerm { byte, domain, body } => {
            let (a, b) = (tree.line(domain), tree.line(body));
            let form = Form::Rec { domain: a, body };
            stand(
                standing,
                store,
                env,
                Statement::RecTerm { a, b },
                byte,
                form,
            )
        }
        Node::TypeBinding { bound, .. } => {
            let a = tree.line(bound);
            let line = lay(standing, store, Statement::EnvType { env, a })?;
            Ok(by_line(line, line))
        }
        Node::TermBinding { domain, .. } => {
            let a = tree.line(domain);
            let line = lay(standing, store, Statement::EnvTerm { env, a })?;
            Ok(by_line(line, line))
        }
    }
}
