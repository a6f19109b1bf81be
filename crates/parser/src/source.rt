// The whole of reading.

ghost use Rattle.std.specs.Prelude.{length};
ghost use Rattle.lexer.specs.Coming.{to_come};
ghost use Rattle.parser.specs.Source.{ReadAs};

use crate::parser::Parser;
use grammar::SyntaxFault;
use lexer::Tokens;
use syntax::{Node, Phrase};
use tables::Table;

// Reads a source as a phrase, with its tree in these places.
pub fn parse<'t>(
    tokens: Tokens<'_>,
    places: &'t mut [Node],
) -> Result<(Phrase, &'t mut [Node]), SyntaxFault>
    ensures { ReadAs (to_come tokens.entry) (length places.old) result }
{
    let tree = Table::new(places);
    let mut parser = Parser { tokens, tree };
    let phrase = parser.phrase()?;
    Ok((phrase, parser.tree.into_records()))
}
