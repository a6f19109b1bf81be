// A statement that is sought, by the columns that are known before; the others are found. Types, environments and terms are line numbers,
// but a term whose type is sought is the number of its node.

use crate::tree::Tree;

// What the goal of an application or an unfold becomes while the type t of its function or argument, which line p gives, is exposed.
// So many variables at most are gone through.
#[derive(Clone, Copy)]
pub struct Exposing {
    pub most: u32,
    pub env: u16,
    pub node: usize,
    pub p: u16,
    pub t: u16,
}

// j may be 65,536: that goal is refused where it would be sought.
#[derive(Clone, Copy)]
pub enum Goal {
    // a with every variable above j raised by 1
    Raising {
        a: u16,
        j: u32,
    },
    // b with a put for variable j
    Putting {
        b: u16,
        j: u32,
        a: u16,
    },
    // the bound of type variable k
    Bound {
        env: u16,
        k: u16,
    },
    // the type of term variable k
    Typing {
        env: u16,
        k: u16,
    },
    Env {
        env: u16,
    },
    Type {
        env: u16,
        a: u16,
    },
    // a <: b
    Sub {
        env: u16,
        a: u16,
        b: u16,
    },
    // the type variable a is below its bound
    Var {
        env: u16,
        a: u16,
    },
    // a type of a term, by the term's own rule
    Term {
        env: u16,
        node: usize,
    },
    // the term a has the type b, by subsumption from the lines p and q
    Subsumed {
        env: u16,
        a: u16,
        b: u16,
        p: u16,
        q: u16,
    },
    Exposing(Exposing),
}

impl Goal {
    ghost use Rattle.std.specs.Prelude.{◌≡◌, ◌↔◌, true};
    ghost use Rattle.judge.specs.Seeking.{byte_at, fits};
    ghost use Rattle.actions.specs.Actions.{Fits, Terms, sought};

    // Whether its plain number, if it is a 40 or 41, is one that a line can hold.
    pub fn fits(self) -> bool
        ensures fits { (t : Terms) → result ≡ fits (sought t self) }
        ensures within { (result ≡ true) ↔ Fits self }
    {
        match self {
            Goal::Raising { j, .. } | Goal::Putting { j, .. } => j <= 65535,
            _ => true,
        }
    }

    // The byte of the term that it is about: what ends before it is finished is placed there.
    pub fn byte<T: Tree>(self, tree: &T) -> Option<u16>
        ensures { result ≡ byte_at (sought (T.terms tree.now) self) }
    {
        match self {
            Goal::Term { node, .. } | Goal::Exposing(Exposing { node, .. }) => Some(tree.byte(
                node,
            )),
            _ => None,
        }
    }
}
