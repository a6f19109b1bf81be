// The lines of a listing as records in lent memory.

ghost use Rattle.std.specs.Prelude.{◌≡◌, ◌≤◌, [], length, take};
ghost use Rattle.tables.specs.Tables.{held};

use crate::table::Table;
use lines::{Line, LineStore, MAX_ROOM, OutOfForm, StoreFault};

// Room for as many lines as there are records, at most 65,535.
// Kept as clauses beside the type's own fact: a store says in the trait what its calls keep, which is here Counted.
#[derive(Drop)]
pub struct LineTable<'a> {
    table: Table<'a, Line>,
    ghost countable: { length (held table) ≤ 65535 },
}

impl<'a> LineTable<'a> {
    ghost use Rattle.lines.specs.Adopts.{Adopted};
    ghost use Rattle.tables.specs.LineTables.{records, every, standing, lender, Counted};

    // A table without lines; what stands in the slots stays there.
    pub fn new(slots: &'a mut [Line]) -> LineTable<'a>
        ensures lines { standing result ≡ [] }
        ensures records { records result ≡ slots.old }
        ensures kept { Counted result }
        ensures lender { lender result ≡ slots.entry.ghost_name }
    {
        LineTable {
            table: Table::new(slots),
        }
    }

    // Takes what stands in the first n slots for the lines, if n is within the room.
    pub fn adopt(&mut self, n: usize) -> Result<u16, OutOfForm>
        ensures records { records self.new ≡ records self.old }
        ensures cases { Adopted (λ _. Unit {0}) (every self.old) n (standing self.old) (standing self.new) result }
        ensures kept { Counted self.new }
        ensures lender { lender self.new ≡ lender self.old }
    {
        // the first place beyond the room
        let place = self.room() as u32 + 1;
        let count = u16::try_from(n).map_err(|_| OutOfForm { place })?;
        self.table.adopt(n).map_err(|_| OutOfForm { place })?;
        Ok(count)
    }
}

impl LineStore for LineTable<'_> {
    ghost use Rattle.lines.specs.Stores.{Put};
    ghost use Rattle.tables.specs.Tables.{Wrote};
    ghost use Rattle.tables.specs.LineTables.{records, standing, spaces, lender, Counted, within_room, within_cap};

    ghost lines = { λ t. standing t };

    ghost most = { λ t. spaces t };

    ghost keeps = { λ t. Counted t };

    ghost within = { λ t. within_room t };

    ghost capped = { λ t. within_cap t };

    fn count(&self) -> u16 {
        self.table.count() as u16
    }

    fn room(&self) -> u16 {
        self.table.places().min(MAX_ROOM) as u16
    }

    fn get(&self, n: u16) -> Option<Line> {
        let i = (n as usize).checked_sub(1)?;
        let record = self.table.records().get(i)?;
        // Kept as it is: get reads a record field by field, which is a rule of the project.
        Some(Line {
            code: record.code,
            c1: record.c1,
            c2: record.c2,
            c3: record.c3,
            c4: record.c4,
            c5: record.c5,
            c6: record.c6,
            c7: record.c7,
        })
    }

    // It writes its own record and no other.
    fn put(&mut self, line: Line) -> Result<u16, StoreFault>
        ensures room { spaces self.new ≡ spaces self.old }
        ensures cases { Put (standing self.old) (standing self.new) (spaces self.old) line result }
        ensures kept { Counted self.new }
        ensures records { Wrote (records self.old) (records self.new) (length (standing self.old)) line result }
        ensures lender { lender self.new ≡ lender self.old }
    {
        let count = self.count();
        let number = count.checked_add(1).ok_or(StoreFault { count })?;
        self.table.push(line).map_err(|_| StoreFault { count })?;
        Ok(number)
    }

    // It writes no record.
    fn cut(&mut self, n: u16)
        ensures room { spaces self.new ≡ spaces self.old }
        ensures lines { standing self.new ≡ take n (standing self.old) }
        ensures kept { Counted self.new }
        ensures records { records self.new ≡ records self.old }
        ensures lender { lender self.new ≡ lender self.old }
    {
        self.table.cut(n as usize);
    }
}
