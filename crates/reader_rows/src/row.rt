// A phrase or a node as a row of numbers.

ghost use Rattle.std.specs.Prelude.{◌≡◌};
ghost use Rattle.lexer.specs.Names.{bytes_of};
ghost use Rattle.reader_rows.specs.Rows.{row, no_name, node_row, phrase_row};

use lexer::Name;
use syntax::{Node, Phrase};

// The kind of a phrase or of a node, its byte, its other numbers and its name; 0 for what it has not.
// Kept as numbers: the layout is C's, and hosts lend their records in it.
#[repr(C)]
#[derive(Clone, Copy, PartialEq, Eq, Debug)]
pub struct Row {
    pub kind: u8,
    pub byte: u16,
    pub first: usize,
    pub second: usize,
    pub name: [u8; 14],
}

const NO_NAME: [u8; 14] = [0; 14];

// A row without a name.
fn plain(kind: u8, byte: u16, first: usize, second: usize) -> Row
    ensures { result ≡ row kind byte first second no_name }
{
    Row {
        kind,
        byte,
        first,
        second,
        name: NO_NAME,
    }
}

fn named(kind: u8, byte: u16, first: usize, second: usize, name: Name) -> Row
    ensures { result ≡ row kind byte first second (bytes_of name) }
{
    Row {
        kind,
        byte,
        first,
        second,
        name: name.bytes(),
    }
}

impl Row {
    // Kept as a match, and so the next: this is the table of kinds, a row each.
    pub fn of_node(node: Node) -> Row
        ensures { result ≡ node_row node }
    {
        match node {
            Node::Top => plain(0, 0, 0, 0),
            Node::TypeVar { number } => plain(1, 0, number, 0),
            Node::TypeName { byte, name, inside } => named(2, byte, inside, 0, name),
            Node::Arrow { left, right } => plain(3, 0, left, right),
            Node::All { bound, body } => plain(4, 0, bound, body),
            Node::AllUnbounded { first, body } => plain(5, 0, first, body),
            Node::RecType { body } => plain(6, 0, body, 0),
            Node::TopTerm { byte } => plain(7, byte, 0, 0),
            Node::TermVar { byte, number } => plain(8, byte, number, 0),
            Node::TermName { byte, name, inside } => named(9, byte, inside, 0, name),
            Node::Fun { byte, domain, body } => plain(10, byte, domain, body),
            Node::Appl {
                byte,
                function,
                argument,
            } => plain(11, byte, function, argument),
            Node::Fun2 { byte, bound, body } => plain(12, byte, bound, body),
            Node::Fun2Unbounded { byte, first, body } => plain(13, byte, first, body),
            Node::Appl2 {
                byte,
                function,
                argument,
            } => plain(14, byte, function, argument),
            Node::Fold { byte, to, argument } => plain(15, byte, to, argument),
            Node::Unfold { byte, argument } => plain(16, byte, argument, 0),
            Node::RecTerm { byte, domain, body } => plain(17, byte, domain, body),
            Node::TypeBinding { name, bound } => named(18, 0, bound, 0, name),
            Node::TermBinding { name, domain } => named(19, 0, domain, 0, name),
            Node::TypeLine { line } => plain(20, 0, line.into(), 0),
        }
    }

    pub fn of_phrase(phrase: Phrase) -> Row
        ensures { result ≡ phrase_row phrase }
    {
        match phrase {
            Phrase::LetType { name, bound, to } => named(0, 0, bound, to, name),
            Phrase::LetTypeUnbounded { name, to } => named(1, 0, to, 0, name),
            Phrase::LetTerm { name, stated, term } => named(2, 0, stated, term, name),
            Phrase::LetTermUntyped { name, term } => named(3, 0, term, 0, name),
            Phrase::TypePhrase { node } => plain(4, 0, node, 0),
            Phrase::TermPhrase { node } => plain(5, 0, node, 0),
            Phrase::JudgeEnv => plain(6, 0, 0, 0),
            Phrase::JudgeType { node } => plain(7, 0, node, 0),
            Phrase::JudgeSubtype { left, right } => plain(8, 0, left, right),
            Phrase::JudgeTerm { term, stated } => plain(9, 0, term, stated),
        }
    }
}
