// Lines, the answers of all calls, and the trait of the stores that lines are kept in.
//
// Line         a code (0 to 255) and columns c1 to c7 (0 to 65,535). Lines are numbered from 1, and 0 names none. `code` has the codes by name.
//   columns()  c1 to c7
// Answer       what a call answers: number() and place() as they are printed, cause() the number of the cause of 13 and else 0.
//   from(..)   of an Unsound (13), of an OutOfForm (14), and of a Result with either: its Ok is Granted
// Cause        why a line is at fault, 1 to 5: number(), and in words by {}.
// Unsound      a listing is unsound: the first `line` at fault, and the first `cause` that holds of it.
// OutOfForm    an adopt was refused: the first `place`, from 1, that is out of form or beyond the room.
// StoreFault   a put was refused; `count` lines stood.
//
// LineStore    a list of lines and a fixed room of at most 65,535. No call asks anything.
//   count()    how many lines stand                      changes nothing
//   room()     how many can stand                        changes nothing
//   get(n)     line n; none if n is 0 or above the count changes nothing
//   put(line)  adds it at the end, Ok(its number); Err, exactly when the count equals the room, changes nothing
//   cut(n)     keeps the first n lines, or all if n is larger
//   iter()     the lines from the first to the last      changes nothing
// Lines        what iter() answers: each line once, in order
#![tactic(auto)]

mod answer;
pub mod code;
mod fault;
mod iter;
mod line;
mod store;

pub use answer::{Answer, Cause};
pub use fault::{OutOfForm, Unsound};
pub use iter::Lines;
pub use line::Line;
pub use store::{LineStore, MAX_ROOM, StoreFault};
