// The lexicon: from the bytes of a source to its tokens, each read only once the one before it is used.
//
// Tokens       the tokens of a source that are still to come. What stands next has been read, and nothing behind it. No call asks anything.
//   new(source)  the tokens of a source; Err, exactly if it has more than 65,535 bytes
//   look()     what stands next: a token, or what is wrong where none can be read      changes nothing
//   advance()  uses the token that stands next; the end and a fault are not used, and stay
// Token        a `word`, and the number of the `byte` that it begins with
// Word         a keyword, a symbol, a delimiter, a name, or the End, whose byte is the length of the source
// LexicalFault why no token can be read, with the byte that is named: the answers 3, 4, 5, and 7 of a comment
// SourceTooLong  the answer 2
//
// Name         the 14 bytes of a name. Two names are == exactly if they have the same bytes.
//   new(spelling)  the name with this spelling; none if it has more than 14 bytes
//   bytes()    its 14 bytes, 0 after its end
//   columns()  its bytes as the seven columns of a line, two a number
//   from_columns(columns)  the name whose bytes these are
//
// Class        what a byte is in the lexicon
//   of(b)      the class of byte b
//
// What the tokens of a source are is in specs/Lexicon.antt, what is wrong where there is none in specs/Faults.antt, and the two together,
// for a whole source, in specs/Lexed.antt.
#![tactic(auto)]

mod class;
mod fault;
mod lexeme;
mod name;
mod space;
mod token;
mod tokens;

pub use class::Class;
pub use fault::{LexicalFault, SourceTooLong};
pub use name::Name;
pub use token::{Token, Word};
pub use tokens::Tokens;
