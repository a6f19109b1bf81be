// Space: blanks and comments. Comments may hold comments.

ghost use Rattle.std.specs.Prelude.{◌≡◌, ◌<◌, ◌+◌, ◌∷◌, [], List, ℕ, length, IfOk};
ghost use Rattle.lexer.specs.Lexicon.{byte_of};
ghost use Rattle.lexer.specs.Skipping.{skipped, Skips, Closes};

use crate::class::Class;
use crate::fault::LexicalFault;

// How many comments may be open at once.
const MAX_OPEN: u8 = 128;

// The number of the first of these bytes, the last ones of a source of that length.
pub(crate) fn byte_of(source_len: u16, bytes: &[u8]) -> u16
    ensures { result ≡ byte_of source_len bytes.now }
{
    (source_len as usize).saturating_sub(bytes.len()) as u16
}

// What is behind the space that these bytes begin with.
pub(crate) fn skip_space(source_len: u16, bytes: &[u8]) -> Result<&[u8], LexicalFault>
    ensures { Skips (skipped source_len [] bytes.now) result }
{
    let mut rest = bytes;
    loop {
        rest = match rest {
            [b'(', b'*', inside @ ..] => skip_comment(
                source_len,
                byte_of(source_len, rest),
                inside,
                1,
            )?,
            [b, behind @ ..] if Class::of(*b) == Class::Blank => behind,
            _ => return Ok(rest),
        };
    }
}

// What is behind the comment that opens at that byte, which makes that many open. Only for a comment inside it does it call itself,
// so at most 128 calls are under way at once.
fn skip_comment(
    source_len: u16,
    opening: u16,
    inside: &[u8],
    depth: u8,
) -> Result<&[u8], LexicalFault>
    ensures skips { (opened : List ℕ) → length opened + 1 ≡ depth → Closes source_len opening opened inside.now result }
    ensures shorter { IfOk result (λ rest. length rest.now < length inside.now) }
{
    let mut rest = inside;
    loop {
        rest = match rest {
            [] => return Err(LexicalFault::OpenComment(opening)),
            [b'(', b'*', inside @ ..] => {
                let opening = byte_of(source_len, rest);
                if depth >= MAX_OPEN {
                    return Err(LexicalFault::DeepComment(opening));
                }
                skip_comment(source_len, opening, inside, depth + 1)?
            }
            [b'*', b')', behind @ ..] => return Ok(behind),
            [b, ..] if Class::of(*b) == Class::Illegal => {
                return Err(LexicalFault::NoToken(byte_of(source_len, rest)));
            }
            [_, behind @ ..] => behind,
        };
    }
}
