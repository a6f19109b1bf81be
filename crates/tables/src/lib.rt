// Tables in lent memory: the growing table of records, and the line store that keeps lines in one.
//
// Table<T>     a growing table over a lent slice, for every record T that can be copied. It holds no more records than it has places.
//   new(slots) no records; no slot is changed
//   count()    how many records it holds                 changes nothing
//   places()   how many it can hold                      changes nothing
//   get(i)     record i, from 0; none past the last one  changes nothing
//   push(x)    Ok: x stands at the end; Err, exactly when count equals places, changes nothing
//   pop()      takes the last record away and gives it; none if there is none
//   cut(n)     keeps the first n records, or all if n is larger
//   adopt(n)   Ok: the first n slots are the records; Err, exactly when n is above places, changes nothing
//   into_records() the part of the slots where its records stand, which are as they were
// TableFault   a push or an adopt was refused: the table has that many `places`.
//
// LineTable    a line store: lines as records in a lent slice. Room: its records, at most 65,535.
//   new(slots) no lines; no record is changed
//   adopt(n)   Ok(n): the first n records are the lines; Err, exactly when n is above the room, names place room + 1 and changes nothing
//   Put writes its own record, and cut and adopt none. It holds no more lines than its room.
#![tactic(auto)]

mod line_table;
mod table;

pub use line_table::LineTable;
pub use table::{Table, TableFault};
