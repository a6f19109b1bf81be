// The tokens of a source, one after another: the one that stands next is read, and none behind it.

ghost use Rattle.std.specs.Prelude.{◌≡◌, ◌∷◌, true, length, ◌<◌, ◌↔◌, IfOk, IsErr};
ghost use Rattle.lexer.specs.Cases.{CasesHold};
ghost use Rattle.lexer.specs.Lexed.{Lexed, Tells};
ghost use Rattle.lexer.specs.Items.{items, items_from, taken, Takes};

use crate::fault::{LexicalFault, SourceTooLong};
use crate::lexeme::read_lexeme;
use crate::space::{byte_of, skip_space};
use crate::token::{Token, Word};

#[derive(Clone, Copy, Debug)]
pub struct Tokens<'s> {
    next: Result<Token, LexicalFault>,
    // of the source
    length: u16,
    // what is behind the token that stands next
    rest: &'s [u8],
}

impl<'s> Tokens<'s> {
    ghost use Rattle.lexer.specs.Coming.{to_come, behind, used, ordinary};

    // The tokens of a source, if it has at most 65,535 bytes.
    pub fn new(source: &'s [u8]) -> Result<Tokens<'s>, SourceTooLong>
        ensures items { IfOk result (λ tokens. to_come tokens ≡ items source.now) }
        ensures lexicon { IfOk result (λ tokens. Lexed source.now (to_come tokens)) }
        ensures cases { CasesHold }
        ensures too_long { IsErr result ↔ (65535 < length source.now) }
    {
        let length = u16::try_from(source.len()).map_err(|_| SourceTooLong)?;
        Ok(Tokens::at(length, source))
    }

    // The tokens of these bytes, the last ones of a source of that length.
    #[tactic(auto, unfolding(crate::specs::Items::items_from))]
    fn at(length: u16, bytes: &'s [u8]) -> Tokens<'s>
        ensures { to_come result ≡ items_from length bytes.now }
    {
        match read(length, bytes) {
            Ok((token, rest)) => Tokens {
                next: Ok(token),
                length,
                rest,
            },
            Err(fault) => Tokens {
                next: Err(fault),
                length,
                rest: bytes,
            },
        }
    }

    // What stands next.
    pub fn look(&self) -> Result<Token, LexicalFault>
        ensures next { to_come self.now ≡ result ∷ behind self.now }
        ensures ordinary { ordinary (to_come self.now) ≡ true }
    {
        self.next
    }

    // Uses the token that stands next. The end of the source and a fault stay.
    #[tactic(auto, unfolding(crate::specs::Items::items_from))]
    pub fn advance(&mut self)
        ensures { to_come self.new ≡ used (to_come self.old) }
    {
        if let Ok(token) = self.next
            && token.word != Word::End
        {
            *self = Tokens::at(self.length, self.rest);
        }
    }
}

// The token that these bytes begin with, the last ones of a source of that length, and what is behind it.
fn read(length: u16, bytes: &[u8]) -> Result<(Token, &[u8]), LexicalFault>
    ensures token { Takes (taken length bytes.now) result }
    ensures lexicon { Tells length bytes.now result }
{
    let lexeme = skip_space(length, bytes)?;
    let byte = byte_of(length, lexeme);
    let (word, rest) = read_lexeme(byte, lexeme)?;
    Ok((Token { word, byte }, rest))
}
