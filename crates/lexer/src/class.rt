// The class of a byte.

ghost use Rattle.std.specs.Prelude.{◌≡◌};
ghost use Rattle.lexer.specs.Classes.{class_of};

#[derive(Clone, Copy, PartialEq, Eq, Debug)]
pub enum Class {
    Blank,
    Letter,
    Digit,
    Special,
    Delimiter,
    Reserved,
    Illegal,
}

impl Class {
    #[tactic(auto, unfolding(crate::specs::Classes::class_of))]
    pub fn of(b: u8) -> Class
        ensures { result ≡ class_of b }
    {
        match b {
            b'\t' | b'\n' | b'\x0C' | b'\r' | b' ' => Class::Blank,
            b'A'..=b'Z' | b'`' | b'a'..=b'z' => Class::Letter,
            b'0'..=b'9' => Class::Digit,
            b'#' | b'$' | b'%' | b'&' | b'*' | b'+' | b'-' | b'/' | b':' => Class::Special,
            b'<' | b'=' | b'>' | b'@' | b'\\' | b'^' | b'|' => Class::Special,
            b'!' | b'(' | b')' | b',' | b'.' | b';' => Class::Delimiter,
            b'?' | b'[' | b']' | b'_' | b'{' | b'}' => Class::Delimiter,
            b'"' | b'\'' | b'~' => Class::Reserved,
            _ => Class::Illegal,
        }
    }
}
