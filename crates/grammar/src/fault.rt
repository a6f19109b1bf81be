// Why a source is no phrase, with the byte that is named, and the answer that each fault is.

ghost use Rattle.std.specs.Prelude.{◌≡◌};
ghost use Rattle.grammar.specs.Answers.{answer_of};
ghost use Rattle.grammar.specs.declared.fault.SyntaxFault.TheVariants.{Lexical};

use lexer::LexicalFault;
use lines::Answer;

#[derive(Clone, Copy, PartialEq, Eq, Debug)]
pub enum SyntaxFault {
    // 3, 4, 5, or 7 of a comment: no token can be read
    Lexical(LexicalFault),
    // 6: a token that is not allowed there
    Unexpected(u16),
    // 7: a type or term that begins inside too many others
    TooDeep(u16),
    // 8: a thing that is whole, and finds no place in the tree table
    TreeFull(u16),
}

impl From<LexicalFault> for SyntaxFault {
    ghost from_gives = { λ fault given. given ≡ Lexical fault };

    fn from(fault: LexicalFault) -> SyntaxFault {
        SyntaxFault::Lexical(fault)
    }
}

impl From<SyntaxFault> for Answer {
    ghost from_gives = { λ fault answer. answer ≡ answer_of fault };

    fn from(fault: SyntaxFault) -> Answer {
        match fault {
            SyntaxFault::Lexical(fault) => fault.into(),
            SyntaxFault::Unexpected(byte) => Answer::Unexpected(byte),
            SyntaxFault::TooDeep(byte) => Answer::TooDeep(byte),
            SyntaxFault::TreeFull(byte) => Answer::TreeFull(byte),
        }
    }
}
