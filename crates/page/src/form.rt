// A line as text, 46 bytes: the code in 3 columns, the seven numbers in 6 each, and byte 10.

ghost use Rattle.page.specs.Form.{digit_or_space, in_columns, of_columns, encoded, decoded, InForm};
ghost use Rattle.std.specs.Prelude.{◌≡◌, ◌<◌, ◌≤◌, ◌↔◌, length, min, IsTrue};

use lines::Line;

pub const LINE_BYTES: usize = 46;

// The last digit of n, or a space if nothing is left of it.
fn column(n: u16) -> u8
    ensures { result ≡ digit_or_space n }
{
    if n == 0 { b' ' } else { b'0' + (n % 10) as u8 }
}

// Writes n into the columns: spaces in front, no leading zeros, and a digit in the last column always.
fn write(columns: &mut [u8], n: u16)
    requires { 0 < length columns.old }
    ensures { columns.new ≡ in_columns (length columns.old) n }
{
    let last = columns.len() - 1;
    columns[last] = b'0' + (n % 10) as u8;
    let mut rest = n / 10;
    // Kept as an index loop: a proof knows nothing of bytes that a loop wrote through `iter_mut().rev()`.
    for k in (0..last).rev() {
        columns[k] = column(rest);
        rest /= 10;
    }
}

// The 46 bytes that a line is written as.
pub fn encode(line: Line) -> [u8; LINE_BYTES]
    ensures bytes { result ≡ encoded line }
    ensures form { InForm result }
    ensures back { decoded result ≡ line }
{
    let mut out = [b'\n'; LINE_BYTES];
    write(&mut out[..3], line.code.into());
    // Kept with places counted from k: a proof knows nothing of bytes that a loop wrote through `chunks_exact_mut`.
    for (k, n) in line.columns().iter().enumerate() {
        let at = 3 + 6 * k;
        write(&mut out[at..at + 6], *n);
    }
    out
}

// The number that columns are read as, at most 65,535, whatever bytes stand there: a space and the digit 0 count nothing.
fn read(columns: &[u8]) -> u16
    requires { length columns.now ≤ 6 }
    ensures { result ≡ min (of_columns (length columns.now) columns.now 0) 65535 }
{
    // From the last column on: from the first one on it would need no power of ten, and take a quarter longer.
    let mut n = 0;
    let mut power = 1;
    for byte in columns.iter().rev() {
        n += u32::from(byte.saturating_sub(b'0')) * power;
        power *= 10;
    }
    n.min(65535) as u16
}

// What 46 bytes are read as, in form or not.
pub(crate) fn decode(place: &[u8; LINE_BYTES]) -> Line
    ensures { result ≡ decoded place.now }
{
    // Kept as eight reads: a line's columns are fields.
    Line {
        code: read(&place[..3]).min(255) as u8,
        c1: read(&place[3..9]),
        c2: read(&place[9..15]),
        c3: read(&place[15..21]),
        c4: read(&place[21..27]),
        c5: read(&place[27..33]),
        c6: read(&place[33..39]),
        c7: read(&place[39..45]),
    }
}

pub(crate) fn in_form(place: &[u8; LINE_BYTES]) -> bool
    ensures { IsTrue result ↔ InForm place.now }
{
    *place == encode(decode(place))
}
