// A line store: a list of lines and a fixed room of at most 65,535.

ghost use Rattle.std.specs.Prelude.{◌≡◌, ℕ, ◌≤◌, List, length, take};
ghost use Rattle.lines.specs.Stores.{numbered, Put};
ghost use Rattle.lines.specs.declared.line.Line.{Line};

use crate::iter::Lines;
use crate::line::Line;

// No store has more room than this.
pub const MAX_ROOM: usize = 65535;

// A put was refused: the store held this many lines, which is its room.
#[derive(Clone, Copy, PartialEq, Eq, Debug)]
pub struct StoreFault {
    pub count: u16,
}

pub trait LineStore {
    // the lines that stand, line 1 first
    ghost lines: { Self → List Line };

    // how many lines it can hold
    ghost most: { Self → ℕ };

    // what its calls keep true from new on; nothing requires it
    ghost keeps: { Self → Type 0 };

    fn count(&self) -> u16
        ensures { result ≡ length (lines self.now) };

    fn room(&self) -> u16
        ensures { result ≡ most self.now };

    // Line n; none if n is 0 or above the count.
    fn get(&self, n: u16) -> Option<Line>
        ensures { result ≡ numbered (lines self.now) n };

    // Kept in the clauses of each call: what it leaves as it was relates two values, which no type does.
    // Adds a line at the end and gives its number; refuses exactly when the count equals the room, and then changes nothing.
    fn put(&mut self, line: Line) -> Result<u16, StoreFault>
        ensures room { most self.new ≡ most self.old }
        ensures cases { Put (lines self.old) (lines self.new) (most self.old) line result }
        ensures kept { keeps self.old → keeps self.new };

    // Keeps the first n lines, or all if n is larger.
    fn cut(&mut self, n: u16)
        ensures room { most self.new ≡ most self.old }
        ensures lines { lines self.new ≡ take n (lines self.old) }
        ensures kept { keeps self.old → keeps self.new };

    // The laws of a store: the lines are within the room, and the room within the cap.
    ghost within: { (s : Self) → length (lines s) ≤ most s };

    ghost capped: { (s : Self) → most s ≤ 65535 };

    // The lines from the first to the last.
    final fn iter(&self) -> Lines<'_, Self>
        ensures { result ≡ lines self.now }
    {
        Lines::new(self)
    }
}
