// The page: the line store that keeps lines as text in lent bytes.
//
// Page         a line store: lines as text in lent bytes, LINE_BYTES a line. Room: its whole places, at most 65,535.
//   new(bytes) no lines; no byte is changed
//   adopt(n)   Ok(n), if the first n places are within the room and in form: they are the lines
//              Err(OutOfForm) else, its place the lowest, from 1, that is not: the lines are as they were
//   Put writes its own place, and cut and adopt no byte. The lines are within the room; kept true from new on: their places are in form.
// encode(line) the bytes that a page has of a line: the code in 3 columns, c1 to c7 in 6 each, spaces in front, no leading zeros, byte 10
#![tactic(auto)]

mod form;
mod page;

pub use form::{LINE_BYTES, encode};
pub use page::Page;
