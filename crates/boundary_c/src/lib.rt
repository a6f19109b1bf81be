// The checker and the reader for C and Rust, as a static library. Nothing checks a caller's declarations against these.
//
//     uint64_t check_page(uint8_t *bytes, size_t len, uint8_t rule)
//         the bytes as a page: every 46 of them are taken for a line, an incomplete last place too; then the listing is checked
//     uint64_t check_table(line *records, size_t len, uint8_t rule)
//         the records as a listing: each is a byte and seven 16-bit numbers, 16 bytes in all
//     uint64_t read_source(const uint8_t *source, size_t len, line *records, size_t count, row *rows, size_t rows_len)
//         the source is read with a place of its tree for each row behind the first, and its names are looked up in the records as a listing.
//         A row is a byte (the kind), a 16-bit number (the byte), two of the size of size_t, and 14 bytes (a name).
//
// rule: 0 for EqualBounds, any other number for LeastBound.
// The result is answer * 2^40 + place * 2^8 + cause: the answer is 0 for a sound listing, 13 for an unsound one, and 14 for a page with a
// place out of form or more than 65,535 lines. check_page leaves the bytes as they were; of the records check_table promises nothing.
// read_source answers 0, 2 to 9, or 14 for more than 65,535 records; with 0 the place is 0 too, and the rows are first that of the phrase, then those
// of its nodes (crates/reader_rows/src/row.rt has the kinds); with any other answer they are as they were. Where memory is refused the result is 2^64 - 1.
#![tactic(auto)]

ghost use Rattle.std.specs.Prelude.{◌≡◌};
ghost use Rattle.boundary.specs.Packed.{OnPage, OnTable};
ghost use Rattle.reader_rows.specs.Rows.{ReadInto};

use lines::Line;
use reader_rows::Row;
use std::alloc::Global;

// Kept beside the functions of the same names in boundary: an export is a static library's own.
#[unsafe(no_mangle)]
pub extern "C" fn check_page(heap: Global, bytes: &mut [u8], rule: u8) -> u64
    ensures answer { OnPage rule bytes.old result }
    ensures bytes { bytes.new ≡ bytes.old }
{
    boundary::check_page(heap, bytes, rule)
}

#[unsafe(no_mangle)]
pub extern "C" fn check_table(heap: Global, records: &mut [Line], rule: u8) -> u64
    ensures { OnTable rule records.old result }
{
    boundary::check_table(heap, records, rule)
}

#[unsafe(no_mangle)]
pub extern "C" fn read_source(
    heap: Global,
    source: &[u8],
    records: &mut [Line],
    rows: &mut [Row],
) -> u64
    ensures { ReadInto source.now records.old rows.old rows.new result }
{
    reader_rows::read_source(heap, source, records, rows)
}
