// The terms of a phrase as nodes, once all their parts stand on lines.

ghost use Rattle.std.specs.Prelude.{◌≡◌, ℕ};
ghost use Rattle.judge.specs.Goals.{Placed, line_at, byte_of};
ghost use Rattle.actions.specs.Terms.{placed};

// A node: its line, its byte in the source, and its parts: types by their lines, terms by their nodes.
#[derive(Clone, Copy)]
pub struct Term {
    pub byte: u16,
    pub line: u16,
    pub form: Form,
}

#[derive(Clone, Copy)]
pub enum Form {
    Top,
    Var { k: u16 },
    Fun { domain: u16, body: usize },
    Appl { function: usize, argument: usize },
    Fun2 { bound: u16, body: usize },
    Appl2 { function: usize, argument: u16 },
    Fold { to: u16, argument: usize },
    Unfold { argument: usize },
    Rec { domain: u16, body: usize },
}

pub trait Tree {
    // the term of each node
    ghost terms: { Self → ℕ → Placed };

    fn term(&self, node: usize) -> Term
        ensures { terms self.now node ≡ placed (terms self.now) result };

    // The line of a node.
    final fn line(&self, node: usize) -> u16
        ensures { result ≡ line_at (terms self.now node) }
    {
        self.term(node).line
    }

    // The byte of a node.
    final fn byte(&self, node: usize) -> u16
        ensures { result ≡ byte_of (terms self.now node) }
    {
        self.term(node).byte
    }
}
