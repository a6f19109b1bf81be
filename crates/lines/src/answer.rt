// The answers of all calls: a closed table. An answer is a number, a place and, for an unsound listing, a cause.

ghost use Rattle.lines.specs.Answers.{number, place, cause_of, cause_number, cause_text};
ghost use Rattle.std.specs.Prelude.{◌≡◌, Some};

use std::fmt;

// Why a line is at fault: the first of these that holds of it. Its number is what it is written as.
#[derive(Clone, Copy, PartialEq, Eq, Debug)]
pub enum Cause {
    // its code is unknown or not admitted
    Code = 1,
    // a column past those of its code is not 0
    Column = 2,
    // a line that it names is not earlier, or not of the kind that is named
    Reference = 3,
    // an equal line stands earlier
    Repeated = 4,
    // it does not follow
    Unfounded = 5,
}

#[derive(Clone, Copy, PartialEq, Eq, Debug)]
pub enum Answer {
    // 0: granted; the line, the mark or the count
    Granted(u16),
    // 1: fails; the innermost unfinished term's byte, or 0
    Fails(u16),
    // 2: the source is longer than 65,535 bytes
    SourceTooLong,
    // 3: a lexeme that is no token, or an illegal byte
    NoToken(u16),
    // 4: a comment that is not closed
    OpenComment(u16),
    // 5: a name of more than 14 bytes
    LongName(u16),
    // 6: a token, or the end, that is not allowed there
    Unexpected(u16),
    // 7: a type, term or comment inside 128 others
    TooDeep(u16),
    // 8: the tree table is full
    TreeFull(u16),
    // 9: a name that is not bound
    Unbound(u16),
    // 10: the next step would exceed the count given
    StepsSpent,
    // 11: the waiting goals would exceed their table
    GoalsFull,
    // 12: a put was refused, or a number would pass 65,535
    StoreFull,
    // 13: the listing is unsound; its first line at fault, and the cause
    Unsound(u16, Cause),
    // 14: the first place out of form or beyond the room
    OutOfForm(u32),
    // 15: fewer lines than the mark
    PastCount(u16),
}

impl Cause {
    pub fn number(self) -> u8
        ensures { result ≡ cause_number self }
    {
        self as u8
    }
}

impl fmt::Display for Cause {
    ghost output = { λ cause. Some (cause_text cause) };

    fn fmt<W: fmt::Write>(&self, f: &mut fmt::Formatter<W>) -> fmt::Result {
        f.write_str(match self {
            Cause::Code => "its code is unknown or not admitted",
            Cause::Column => "a column past those of its code is not 0",
            Cause::Reference => "a line that it names is not earlier or not of that kind",
            Cause::Repeated => "an equal line stands earlier",
            Cause::Unfounded => "it does not follow",
        })
    }
}

impl Answer {
    // Kept as a match, and so place and cause: this is the table of answers, a row each.
    pub fn number(self) -> u8
        ensures { result ≡ number self }
    {
        match self {
            Answer::Granted(_) => 0,
            Answer::Fails(_) => 1,
            Answer::SourceTooLong => 2,
            Answer::NoToken(_) => 3,
            Answer::OpenComment(_) => 4,
            Answer::LongName(_) => 5,
            Answer::Unexpected(_) => 6,
            Answer::TooDeep(_) => 7,
            Answer::TreeFull(_) => 8,
            Answer::Unbound(_) => 9,
            Answer::StepsSpent => 10,
            Answer::GoalsFull => 11,
            Answer::StoreFull => 12,
            Answer::Unsound(_, _) => 13,
            Answer::OutOfForm(_) => 14,
            Answer::PastCount(_) => 15,
        }
    }

    pub fn place(self) -> u32
        ensures { result ≡ place self }
    {
        match self {
            Answer::Granted(n)
            | Answer::Fails(n)
            | Answer::NoToken(n)
            | Answer::OpenComment(n)
            | Answer::LongName(n)
            | Answer::Unexpected(n)
            | Answer::TooDeep(n)
            | Answer::TreeFull(n)
            | Answer::Unbound(n)
            | Answer::Unsound(n, _)
            | Answer::PastCount(n) => n.into(),
            Answer::OutOfForm(n) => n,
            Answer::SourceTooLong => 65535,
            Answer::StepsSpent | Answer::GoalsFull | Answer::StoreFull => 0,
        }
    }

    // The cause's number, and 0 where the answer has none.
    pub fn cause(self) -> u8
        ensures { result ≡ cause_of self }
    {
        match self {
            Answer::Unsound(_, cause) => cause.number(),
            _ => 0,
        }
    }
}
