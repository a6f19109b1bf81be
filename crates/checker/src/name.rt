// 90: the fourteen bytes of a line spell a name: letters and digits, a letter first, only 0 after its end, and no keyword.

ghost use Rattle.std.specs.Prelude.{◌≡◌, ℕ, List, ◌∷◌, false, nat_eq};
ghost use Rattle.std.specs.List.{list_any, starts_with};
ghost use Rattle.checker.specs.Decide.{name};
ghost use Rattle.rules.specs.Names.{letter, letter_or_digit, padded, spells_one, keywords, starts_with_letter, is_name};

use lines::Line;

fn letter(b: u8) -> bool
    ensures { result ≡ letter b }
{
    matches!(b, b'A'..=b'Z' | b'`'..=b'z')
}

fn letter_or_digit(b: u8) -> bool
    ensures { result ≡ letter_or_digit b }
{
    letter(b) || b.is_ascii_digit()
}

// Letters and digits up to the first 0, and only 0 from there on.
fn padded(bytes: &[u8]) -> bool
    ensures { result ≡ padded false bytes.now }
{
    let end = bytes
        .iter()
        .position(|&b| !letter_or_digit(b))
        .unwrap_or(bytes.len());
    bytes[end..].iter().all(|&b| b == 0)
}

// The keywords that begin with this letter, each with the 0 that ends it: most names begin with another.
fn keywords(first: u8) -> &'static [&'static [u8]]
    ensures { (bs : List ℕ) → list_any (λ word. starts_with nat_eq (first ∷ bs) word.now) result.now ≡ spells_one keywords (first ∷ bs) }
{
    match first {
        b'A' => &[b"All\0"],
        b'L' => &[b"Let\0"],
        b'R' => &[b"Rec\0"],
        b'T' => &[b"Top\0"],
        b'f' => &[b"fold\0", b"fun\0"],
        b'j' => &[b"judge\0"],
        b'l' => &[b"let\0"],
        b'r' => &[b"rec\0"],
        b't' => &[b"top\0"],
        b'u' => &[b"unfold\0"],
        _ => &[],
    }
}

fn keyword(bytes: &[u8]) -> bool
    ensures { result ≡ spells_one keywords bytes.now }
{
    let Some(&first) = bytes.first() else {
        return false;
    };
    keywords(first).iter().any(|word| bytes.starts_with(word))
}

fn starts_with_letter(bytes: &[u8]) -> bool
    ensures { result ≡ starts_with_letter bytes.now }
{
    bytes.first().is_some_and(|&b| letter(b))
}

fn is_name(bytes: &[u8]) -> bool
    ensures { result ≡ is_name bytes.now }
{
    starts_with_letter(bytes) && padded(bytes) && !keyword(bytes)
}

pub(crate) fn name(l: Line) -> bool
    ensures { result ≡ name l }
{
    is_name(l.columns().map(u16::to_be_bytes).as_flattened())
}
