ghost use Rattle.std.specs.Prelude.{◌≡◌, ◌↔◌, ℕ, List, IfSome, IsTrue};

// How many bytes a name can have.
const MAX_LEN: usize = 14;

// A name as it is kept: its bytes, and 0 after its end. Two names are the same if they have the same bytes.
#[derive(Clone, Copy, PartialEq, Eq, Hash, Debug)]
pub struct Name {
    pub(crate) bytes: [u8; MAX_LEN],
}

impl Name {
    ghost use Rattle.lexer.specs.Names.{bytes_of, name_spelled, same, two_bytes, IsSpelling};

    // The name with this spelling, if it has at most 14 bytes.
    pub fn new(spelling: &[u8]) -> Option<Name>
        ensures name { result ≡ name_spelled spelling.now }

        // Two spellings of letters and digits are kept as one name only if they are the same, and == says whether names are.
        ensures distinct { IsSpelling spelling.now → (other : List ℕ) → IsSpelling other → name_spelled other ≡ name_spelled spelling.now → other ≡ spelling.now }
        ensures same { IfSome result (λ v. (w : Name) → IsTrue (same v w) ↔ (v ≡ w)) }
    {
        if spelling.len() > MAX_LEN {
            return None;
        }
        let mut bytes = [0; MAX_LEN];
        bytes[..spelling.len()].copy_from_slice(spelling);
        Some(Name { bytes })
    }

    // Its 14 bytes: those of its spelling, and 0 after them.
    pub fn bytes(self) -> [u8; MAX_LEN]
        ensures { result ≡ bytes_of self }
    {
        self.bytes
    }

    // Its 14 bytes as the seven columns of a line: two bytes a number, first the high one.
    pub fn columns(self) -> [u16; 7]
        ensures { two_bytes result ≡ bytes_of self }
    {
        let Name { bytes: b } = self;
        [
            u16::from_be_bytes([b[0], b[1]]),
            u16::from_be_bytes([b[2], b[3]]),
            u16::from_be_bytes([b[4], b[5]]),
            u16::from_be_bytes([b[6], b[7]]),
            u16::from_be_bytes([b[8], b[9]]),
            u16::from_be_bytes([b[10], b[11]]),
            u16::from_be_bytes([b[12], b[13]]),
        ]
    }

    // The name whose 14 bytes are these columns.
    pub fn from_columns(columns: [u16; 7]) -> Name
        ensures { bytes_of result ≡ two_bytes columns }
    {
        let mut bytes = [0; MAX_LEN];
        bytes.copy_from_slice(columns.map(u16::to_be_bytes).as_flattened());
        Name { bytes }
    }
}
