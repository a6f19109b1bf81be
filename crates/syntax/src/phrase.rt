// What a phrase is; the fields are numbers of nodes. The bindings of a judge phrase are the binding nodes of the tree, in their order.

use lexer::Name;

#[derive(Clone, Copy, PartialEq, Eq, Debug)]
pub enum Phrase {
    LetType {
        name: Name,
        bound: usize,
        to: usize,
    },
    LetTypeUnbounded {
        name: Name,
        to: usize,
    },
    LetTerm {
        name: Name,
        stated: usize,
        term: usize,
    },
    LetTermUntyped {
        name: Name,
        term: usize,
    },
    TypePhrase {
        node: usize,
    },
    TermPhrase {
        node: usize,
    },
    JudgeEnv,
    JudgeType {
        node: usize,
    },
    JudgeSubtype {
        left: usize,
        right: usize,
    },
    JudgeTerm {
        term: usize,
        stated: usize,
    },
}
