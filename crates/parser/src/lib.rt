// The parser: a source is read as one phrase, by the rows of the grammar (crate grammar).
//
//     parse(tokens, &mut places)
//               Ok((phrase, nodes)): what is to come of the tokens is a phrase: its record, and its nodes, which stand in the places.
//               SyntaxFault: it is none, or a limit is passed: at most 128 types and terms may stand one inside the other, and
//               each node takes a place.
//               It asks nothing and answers whatever is to come. What stands in the places behind the nodes, and in all of them
//               after a fault, is not told.
// SyntaxFault   why, and the byte: answers 3 to 8.
//
// The answer is the one that the grammar gives, Answered of grammar (specs/Reading), which every source has and no source has
// twice. What the record and the nodes of a phrase are is said in syntax (specs/Layout).
#![tactic(auto)]

mod binders;
mod judgment;
mod parser;
mod phrases;
mod source;
mod terms;
mod types;

pub use grammar::SyntaxFault;
pub use source::parse;
