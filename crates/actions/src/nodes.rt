// Nodes in a slice, parts before what they are parts of. A part that does not stand before is none, and none is the term top on line 0.

ghost use Rattle.std.specs.Prelude.{◌≡◌, length, get_or};
ghost use Rattle.actions.specs.Nodes.{no_term, part_of, with_parts};

use crate::tree::{Form, Term, Tree};

#[derive(Clone, Copy)]
pub struct Nodes<'a> {
    terms: &'a [Term],
}

// Part m of node n, or the number past all nodes.
fn part(past: usize, n: usize, m: usize) -> usize
    ensures { result ≡ part_of past n m }
{
    if m < n { m } else { past }
}

fn parts(past: usize, n: usize, form: Form) -> Form
    ensures { result ≡ with_parts past n form }
{
    match form {
        Form::Top => Form::Top,
        Form::Var { k } => Form::Var { k },
        Form::Fun { domain, body } => Form::Fun {
            domain,
            body: part(past, n, body),
        },
        Form::Appl { function, argument } => Form::Appl {
            function: part(past, n, function),
            argument: part(past, n, argument),
        },
        Form::Fun2 { bound, body } => Form::Fun2 {
            bound,
            body: part(past, n, body),
        },
        Form::Appl2 { function, argument } => Form::Appl2 {
            function: part(past, n, function),
            argument,
        },
        Form::Fold { to, argument } => Form::Fold {
            to,
            argument: part(past, n, argument),
        },
        Form::Unfold { argument } => Form::Unfold {
            argument: part(past, n, argument),
        },
        Form::Rec { domain, body } => Form::Rec {
            domain,
            body: part(past, n, body),
        },
    }
}

// Node n, or none.
fn node(terms: &[Term], n: usize) -> Term
    ensures { result ≡ get_or terms.now n no_term }
{
    match terms.get(n) {
        Some(term) => *term,
        None => Term {
            byte: 0,
            line: 0,
            form: Form::Top,
        },
    }
}

impl<'a> Nodes<'a> {
    pub fn new(terms: &'a [Term]) -> Nodes<'a>
        ensures { result.terms.now ≡ terms.now }
    {
        Nodes { terms }
    }
}

impl<'a> Tree for Nodes<'a> {
    ghost use Rattle.actions.specs.Nodes.{node_term};

    ghost terms = { λ nodes. node_term nodes.terms.now };

    fn term(&self, n: usize) -> Term {
        let term = node(self.terms, n);
        Term {
            form: parts(self.terms.len(), n, term.form),
            ..term
        }
    }
}
