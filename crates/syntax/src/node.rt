// A node of the tree. Nodes are numbered from 0, parts before what they are parts of.
// byte: the first byte of a keyword or name; of an application, its parenthesis
// number: which binder of its sort, counted outward from 1; inside: how many binders of its sort stand around
// All other fields are numbers of nodes.

use lexer::Name;

#[derive(Clone, Copy, PartialEq, Eq, Debug)]
pub enum Node {
    Top,
    TypeVar {
        number: usize,
    },
    // a type's name that no binder of the source binds
    TypeName {
        byte: u16,
        name: Name,
        inside: usize,
    },
    // the type of line `line`, for which a Let name stands
    TypeLine {
        line: u16,
    },
    Arrow {
        left: usize,
        right: usize,
    },
    All {
        bound: usize,
        body: usize,
    },
    // `first` is the node that stands first in the body
    AllUnbounded {
        first: usize,
        body: usize,
    },
    RecType {
        body: usize,
    },
    TopTerm {
        byte: u16,
    },
    TermVar {
        byte: u16,
        number: usize,
    },
    // a term's name that no binder of the source binds
    TermName {
        byte: u16,
        name: Name,
        inside: usize,
    },
    Fun {
        byte: u16,
        domain: usize,
        body: usize,
    },
    Appl {
        byte: u16,
        function: usize,
        argument: usize,
    },
    Fun2 {
        byte: u16,
        bound: usize,
        body: usize,
    },
    Fun2Unbounded {
        byte: u16,
        first: usize,
        body: usize,
    },
    Appl2 {
        byte: u16,
        function: usize,
        argument: usize,
    },
    Fold {
        byte: u16,
        to: usize,
        argument: usize,
    },
    Unfold {
        byte: u16,
        argument: usize,
    },
    RecTerm {
        byte: u16,
        domain: usize,
        body: usize,
    },
    // bindings of an environment, X<:A and x:A
    TypeBinding {
        name: Name,
        bound: usize,
    },
    TermBinding {
        name: Name,
        domain: usize,
    },
}
