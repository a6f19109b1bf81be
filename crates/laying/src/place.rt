// What stands for the nodes whose lines are laid, in lent places beside the nodes.

ghost use Rattle.std.specs.Prelude.{◌≡◌, ℕ, ◌≤◌, length, take};
ghost use Rattle.actions.specs.Terms.{formed};
ghost use Rattle.laying.specs.Nodes.{node_at};
ghost use Rattle.laying.specs.Places.{standing};

use actions::{Form, Term, Tree};

// A node: its term, and of a type or a binding its line. `opens`: an omitted bound stands before it.
#[derive(Clone, Copy)]
pub struct Place {
    pub(crate) opens: bool,
    pub(crate) term: Term,
}

// The nodes as terms, once their lines are laid.
#[derive(Clone, Copy)]
pub struct LaidTree<'a> {
    pub places: &'a [Place],
}

impl<'a> LaidTree<'a> {
    // A node that doesn't stand before this one is none.
    fn part(self, node: usize, part: usize) -> usize
        requires { node ≤ length self.places.now }
        ensures { node_at (standing self.entry.places.now) result ≡ node_at (standing (take node self.entry.places.now)) part }
    {
        if part < node { part } else { self.places.len() }
    }

    fn form(self, node: usize, form: Form) -> Form
        requires { node ≤ length self.places.now }
        ensures { (byte line : ℕ) → formed (node_at (standing self.entry.places.now)) byte line result ≡ formed (node_at (standing (take node self.entry.places.now))) byte line form }
    {
        match form {
            Form::Top => Form::Top,
            Form::Var { k } => Form::Var { k },
            Form::Fun { domain, body } => Form::Fun {
                domain,
                body: self.part(node, body),
            },
            Form::Appl { function, argument } => Form::Appl {
                function: self.part(node, function),
                argument: self.part(node, argument),
            },
            Form::Fun2 { bound, body } => Form::Fun2 {
                bound,
                body: self.part(node, body),
            },
            Form::Appl2 { function, argument } => Form::Appl2 {
                function: self.part(node, function),
                argument,
            },
            Form::Fold { to, argument } => Form::Fold {
                to,
                argument: self.part(node, argument),
            },
            Form::Unfold { argument } => Form::Unfold {
                argument: self.part(node, argument),
            },
            Form::Rec { domain, body } => Form::Rec {
                domain,
                body: self.part(node, body),
            },
        }
    }
}

impl<'a> Tree for LaidTree<'a> {
    ghost terms = { λ self. node_at (standing self.places.now) };

    fn term(&self, node: usize) -> Term {
        match self.places.get(node) {
            None => Term {
                byte: 0,
                line: 0,
                form: Form::Top,
            },
            Some(place) => Term {
                byte: place.term.byte,
                line: place.term.line,
                form: self.form(node, place.term.form),
            },
        }
    }
}
