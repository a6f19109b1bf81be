// What the judge does next for a goal that is sought, by what the goal's plan was told so far. No store is changed here.
//
// Goal         a statement that is sought, by the columns known before; a term by its node. `Exposing` is what some goals become.
//   fits()     whether a line can hold its plain number
//   byte(tree) the byte of the term that it is about, if it is about one
// Told         what its plan was told so far, at most five answers `Found { line, result }`
//   and(found) one answer more; asks that there is room
// Statement    what a line that is put says
//   line()     that line, as a `Wide`, whose plain numbers may pass 65,535: is(line) whether it is this one, narrow() the line, if one can hold it
//   result()   what is found out by it
// Action       seek a premise, have a line stand, go on as another goal, count a step, have the goal's own line stand, or fail
// next_action(store, tree, goal, told)
//              the first action of what is left of the goal's plan; one that goes on has room for its answer
// answer(goal, line)
//              the line's result, if the line serves the goal
// Tree         the terms of a phrase as nodes whose parts stand on lines: term(node), line(node), byte(node)
// Nodes        such a tree in a slice, parts before what they are parts of
#![tactic(auto)]

mod action;
mod goal;
mod next;
mod next_bound;
mod next_env;
mod next_exposing;
mod next_put;
mod next_raise;
mod next_sub;
mod next_subsumed;
mod next_term;
mod next_type;
mod next_typing;
mod next_var;
mod nodes;
mod reuse;
mod shown;
mod statement;
mod told;
mod tree;
mod wide;

pub use action::Action;
pub use goal::{Exposing, Goal};
pub use next::next_action;
pub use nodes::Nodes;
pub use reuse::answer;
pub use statement::{HasRule, Statement, SubRule};
pub use told::{Found, Told};
pub use tree::{Form, Term, Tree};
pub use wide::Wide;
