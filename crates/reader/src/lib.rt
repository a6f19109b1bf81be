// The reader: from the bytes of a source to a tree in which every name is looked up, or the one answer that the table of answers gives.
//
//     Tokens::new(source)     Ok(the tokens of the source); Err(SourceTooLong), exactly if it has more than 65,535 bytes (answer 2)
//     read(tokens, &store, places, heap)
//                             Ok((phrase, nodes)): the source is a phrase; its nodes stand in the first of the places that are lent, and each name
//                             is looked up in the bindings of the phrase and in the definitions of the store's lines.
//                             Err(ReadFault): Syntax(..) (answers 3 to 8) where the source is no phrase within the limits, else Unbound(..)
//                             (answer 9), the first name that nothing binds.
//                             It asks nothing, answers whatever stands in the store and in the places, and changes nothing in the store. Memory
//                             from the heap makes it faster; where it is refused the answer is the same.
//     answers                 Answer::from(..) of SourceTooLong and of ReadFault
//
// Which source is which phrase is said by specs/Reads: by the lexicon (crate lexer), the grammar (crate grammar) and the meaning of names (crate scope).
#![tactic(auto)]

mod fault;
mod source;

pub use fault::ReadFault;
pub use grammar::SyntaxFault;
pub use lexer::{LexicalFault, SourceTooLong, Tokens};
pub use scope::Unbound;
pub use source::read;
pub use syntax::{Node, Phrase};
