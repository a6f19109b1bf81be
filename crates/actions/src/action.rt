// What a plan does first.

use crate::goal::{Exposing, Goal};
use crate::statement::Statement;

#[derive(Clone, Copy)]
pub enum Action {
    // seek a premise
    Ask(Goal),
    // have a line stand that says this
    Lay(Statement),
    // go on as another goal in the same place
    Become(Exposing),
    // count a step
    Pay,
    // have the goal's own line stand
    Close(Statement),
    Fail,
}
