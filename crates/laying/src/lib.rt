// The lines that a phrase puts before judging.
#![tactic(auto)]

mod next;
mod node;
mod place;
mod stand;

pub use place::{LaidTree, Place};
