// The tree of a source: its nodes in the order in which the things are read whole, and the record of the phrase.
#![tactic(auto)]

mod node;
mod phrase;

pub use node::Node;
pub use phrase::Phrase;
