// Why a source is not read, with the byte that is named, and the answer that each fault is.

ghost use Rattle.std.specs.Prelude.{◌≡◌};
ghost use Rattle.lines.specs.declared.answer.Answer.TheVariants.{SourceTooLong as too_long};

use lines::Answer;

// A source has at most 65,535 bytes.
#[derive(Clone, Copy, PartialEq, Eq, Debug)]
pub struct SourceTooLong;

#[derive(Clone, Copy, PartialEq, Eq, Debug)]
pub enum LexicalFault {
    // 3: a lexeme that is no token, or an Illegal byte
    NoToken(u16),
    // 4: a comment that is not closed
    OpenComment(u16),
    // 5: a name of more than 14 bytes
    LongName(u16),
    // 7: a comment inside 128 others
    DeepComment(u16),
}

impl From<SourceTooLong> for Answer {
    ghost from_gives = { λ _ answer. answer ≡ too_long };

    fn from(_: SourceTooLong) -> Answer {
        Answer::SourceTooLong
    }
}

impl From<LexicalFault> for Answer {
    ghost use Rattle.lexer.specs.Answers.{answer_of};

    ghost from_gives = { λ fault answer. answer ≡ answer_of fault };

    fn from(fault: LexicalFault) -> Answer {
        match fault {
            LexicalFault::NoToken(byte) => Answer::NoToken(byte),
            LexicalFault::OpenComment(byte) => Answer::OpenComment(byte),
            LexicalFault::LongName(byte) => Answer::LongName(byte),
            LexicalFault::DeepComment(byte) => Answer::TooDeep(byte),
        }
    }
}
