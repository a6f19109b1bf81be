// The search for a line that says what is sought: a loop over a table of waiting goals, which never recurs.
//
//     search::<Q, S, T>(store, tree, places, goal, Steps { taken, most })
//                   Ok(Established { found, steps }): line `found.line` says what is sought, and `found.result` is what was found out by it.
//                   Err(Stop { halt, byte, steps }): no line does, since it fails or a limit was met; `byte` is that of the innermost term
//                   whose own line was not put yet.
//                   It asks nothing, and answers whatever stands in the store, the tree and the places: what the judge's loop answers
//                   (search of judge), and where the lines are sound and say what is sought, what seeking it answers. Lines are only added,
//                   and each premise that waits takes a place.
// lay           has a line stand that says a statement: the one that stands, or one put at the end
// Standing      looks lines up by what they say, and by all their numbers
// Steps         the steps taken, and how many may be
// Halt          Fails, StepsSpent, GoalsFull, or the JudgeFault of a line that could not be put
// JudgeFault    the store's fault, or a number that would pass 65,535
// Wait          what stands in a place
#![tactic(auto)]

mod fault;
mod halt;
mod laid;
mod run;
mod seek;
mod standing;
mod steps;
mod stop;
mod turn;
mod work;

pub use fault::JudgeFault;
pub use halt::Halt;
pub use laid::lay;
pub use run::Established;
pub use seek::search;
pub use standing::Standing;
pub use steps::Steps;
pub use stop::Stop;
pub use work::Wait;

#[cfg(test)]
mod tests;
