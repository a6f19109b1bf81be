// A growing table over a lent slice, for every record that can be copied.

ghost use Rattle.std.specs.Prelude.{◌≡◌, ◌≤◌, [], length, take};
ghost use Rattle.std.specs.List.{slice_get};

// A push or an adopt was refused: the table has this many places.
#[derive(Clone, Copy, PartialEq, Eq, Debug)]
pub struct TableFault {
    pub places: usize,
}

// Kept as a slice and a length: the memory is lent, and nothing is allocated.
// A clause `lender` says that the table still stands in the slots that were lent to it: so the lender knows what they hold at last.
#[derive(Drop)]
pub struct Table<'a, T: Copy> {
    slots: &'a mut [T],
    // the records are the first `len` slots
    len: usize,
    ghost within: { len ≤ length slots.now },
}

impl<'a, T: Copy> Table<'a, T> {
    ghost use Rattle.tables.specs.Tables.{held, places, contents, lender, Pushed, Popped, Taken, Wrote};

    // An empty table; what stands in the slots stays there.
    pub fn new(slots: &'a mut [T]) -> Table<'a, T>
        ensures empty { held result ≡ [] }
        ensures contents { contents result ≡ slots.old }
        ensures lender { lender result ≡ slots.entry.ghost_name }
    {
        Table { slots, len: 0 }
    }

    // How many records it holds.
    pub fn count(&self) -> usize
        ensures held { result ≡ length (held self.now) }
        ensures within { result ≤ places self.now }
    {
        self.records().len()
    }

    // How many records it can hold.
    pub fn places(&self) -> usize
        ensures { result ≡ places self.now }
    {
        self.slots.len()
    }

    // Its records, the first one first.
    pub(crate) fn records(&self) -> &[T]
        ensures { result.now ≡ held self.now }
    {
        &self.slots[..self.len]
    }

    // A copy of record i, counted from 0.
    pub fn get(&self, i: usize) -> Option<T>
        ensures { result ≡ slice_get (held self.now) i }
    {
        self.records().get(i).copied()
    }

    // Adds a record at the end, unless the table is full.
    pub fn push(&mut self, x: T) -> Result<(), TableFault>
        ensures cases { Pushed (held self.old) (held self.new) (places self.old) x result }
        ensures places { places self.new ≡ places self.old }
        ensures contents { Wrote (contents self.old) (contents self.new) (length (held self.old)) x result }
        ensures lender { lender self.new ≡ lender self.old }
    {
        let places = self.places();
        if self.len == places {
            return Err(TableFault { places });
        }
        self.slots[self.len] = x;
        self.len += 1;
        Ok(())
    }

    // Takes the last record away.
    pub fn pop(&mut self) -> Option<T>
        ensures cases { Popped (held self.old) (held self.new) result }
        ensures contents { contents self.new ≡ contents self.old }
        ensures lender { lender self.new ≡ lender self.old }
    {
        let last = self.len.checked_sub(1)?;
        self.len = last;
        Some(self.slots[last])
    }

    // Keeps the first n records, or all if n is larger.
    pub fn cut(&mut self, n: usize)
        ensures held { held self.new ≡ take n (held self.old) }
        ensures contents { contents self.new ≡ contents self.old }
        ensures lender { lender self.new ≡ lender self.old }
    {
        self.len = self.len.min(n);
    }

    // Its records as the part of the slots where they stand.
    pub fn into_records(self) -> &'a mut [T]
        ensures { result.now ≡ held self.entry }
    {
        let Table { slots, len } = self;
        &mut slots[..len]
    }

    // Takes what stands in the first n slots for the records, if there are so many slots.
    pub fn adopt(&mut self, n: usize) -> Result<(), TableFault>
        ensures cases { Taken (contents self.old) n (held self.old) (held self.new) result }
        ensures contents { contents self.new ≡ contents self.old }
        ensures lender { lender self.new ≡ lender self.old }
    {
        let places = self.places();
        if n > places {
            return Err(TableFault { places });
        }
        self.len = n;
        Ok(())
    }
}
