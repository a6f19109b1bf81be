// The whole of reading.

ghost use Rattle.std.specs.Prelude.{length};
ghost use Rattle.grammar.specs.Reading.{Ended};
ghost use Rattle.lexer.specs.Coming.{to_come};
ghost use Rattle.reader.specs.Reads.{Reads, OfGrammar, OfNames};
ghost use Rattle.scope.specs.Definitions.{definitions};

use crate::fault::ReadFault;
use lexer::Tokens;
use lines::LineStore;
use parser::parse;
use scope::resolve;
use std::alloc::Global;
use syntax::{Node, Phrase};

// Kept as clauses: the first is what it answers; that the items of a source end rightly, and so have one answer; and the laws of the definitions that it
// answers by.
#[tactic(auto, using(crate::proofs::Laws::ended, crate::proofs::Laws::of_grammar, crate::proofs::Laws::of_names))]
pub fn read<'t, S: LineStore>(
    tokens: Tokens<'_>,
    store: &S,
    places: &'t mut [Node],
    heap: Global,
) -> Result<(Phrase, &'t mut [Node]), ReadFault>
    ensures answer { Reads (length places.old) (to_come tokens.entry) (definitions (S.lines store.now)) result }
    ensures ended { Ended (to_come tokens.entry) }
    ensures grammar { OfGrammar }
    ensures names { OfNames }
{
    let (phrase, nodes) = parse(tokens, places)?;
    resolve(store, nodes, heap)?;
    Ok((phrase, nodes))
}
