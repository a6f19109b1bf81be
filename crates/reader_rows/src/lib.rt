// The reader with its tree as rows of numbers, so that programs in C and Rust can compare it with another reader.
//
//     read_source(heap, source, records, rows)
//         Reads the source with one place fewer than there are rows for its tree, and looks its names up in the records as lines.
//         The result is answer * 2^40 + place * 2^8, with 0 for the place of answer 0; or 2^64 - 1 where memory was refused.
//         For answer 0 the first row is that of the phrase and the others those of its nodes, in order; the rows behind them are as they were.
//         For every other answer all rows are as they were.
// Row           the kind of a phrase or node and its numbers, 0 for those that it has not
#![tactic(auto)]

mod read;
mod row;

pub use read::read_source;
pub use row::Row;
