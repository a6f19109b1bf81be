// A line to be: its plain numbers may pass 65,535, and then no line can hold it.

ghost use Rattle.std.specs.Prelude.{◌≡◌, ◌≤◌, true};
ghost use Rattle.judge.specs.Seeking.{same_line};

use lines::Line;

#[derive(Clone, Copy, Default)]
pub struct Wide {
    pub code: u8,
    pub c1: u64,
    pub c2: u32,
    pub c3: u16,
    pub c4: u16,
    pub c5: u16,
    pub c6: u16,
    pub c7: u16,
}

impl Wide {
    ghost use Rattle.actions.specs.Wides.{widened, Narrow};

    // Whether it is this line.
    pub fn is(self, l: Line) -> bool
        ensures same { result ≡ same_line (widened self) l }
        ensures narrow { result ≡ true → self.c1 ≤ 65535 }
    {
        self.code == l.code
            && self.c1 == u64::from(l.c1)
            && self.c2 == u32::from(l.c2)
            && self.c3 == l.c3
            && self.c4 == l.c4
            && self.c5 == l.c5
            && self.c6 == l.c6
            && self.c7 == l.c7
    }

    // The line that it is, if a line can hold it.
    pub fn narrow(self) -> Option<Line>
        ensures { Narrow self result }
    {
        Some(Line {
            code: self.code,
            c1: self.c1.try_into().ok()?,
            c2: self.c2.try_into().ok()?,
            c3: self.c3,
            c4: self.c4,
            c5: self.c5,
            c6: self.c6,
            c7: self.c7,
        })
    }
}
