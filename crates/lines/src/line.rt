ghost use Rattle.std.specs.Prelude.{◌≡◌};

// One line of a listing: a code and seven columns.
// Lines are numbered from 1; a column that names a line holds its number, and 0 where there is none.
// Kept as eight numbers: the layout is C's, and hosts lend their records in it.
#[repr(C)]
#[derive(Clone, Copy, PartialEq, Eq, Hash, Debug, Default)]
pub struct Line {
    pub code: u8,
    pub c1: u16,
    pub c2: u16,
    pub c3: u16,
    pub c4: u16,
    pub c5: u16,
    pub c6: u16,
    pub c7: u16,
}

impl Line {
    ghost use Rattle.lines.specs.Lines.{numbers};

    // c1 to c7 in order.
    pub fn columns(self) -> [u16; 7]
        ensures { result ≡ numbers self }
    {
        [
            self.c1, self.c2, self.c3, self.c4, self.c5, self.c6, self.c7,
        ]
    }
}
