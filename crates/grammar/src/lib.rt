// The grammar of sources, in specs/, and why a source is no phrase.
#![tactic(auto)]

mod fault;

pub use fault::SyntaxFault;
