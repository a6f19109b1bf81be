// The lines of a listing as text in lent bytes.

ghost use Rattle.lines.specs.Adopts.{Adopted};
ghost use Rattle.lines.specs.Stores.{Put};
ghost use Rattle.page.specs.Form.{InForm};
ghost use Rattle.std.specs.Prelude.{◌≡◌, ◌-◌, ◌/◌, ◌≤◌, [], length, min, take, OnOk};
ghost use Rattle.std.specs.Simd.{first_chunks};

use crate::form::{LINE_BYTES, decode, encode, in_form};
use lines::{Line, LineStore, MAX_ROOM, OutOfForm, StoreFault};

// Room for as many lines as there are whole places of 46 bytes, at most 65,535.
// Kept as bytes and a count: the memory is lent, and nothing is allocated.
// Kept as clauses: that the counted places are in form, Formed. A store's clauses `kept` say it in any case, so a field would only say it twice.
// A clause `lender` says that the page still stands in the bytes that were lent to it: so the lender knows what they hold at last.
#[derive(Drop)]
pub struct Page<'a> {
    bytes: &'a mut [u8],
    count: u16,
    ghost within: { count ≤ min (length bytes.now / 46) 65535 },
}

impl<'a> Page<'a> {
    ghost use Rattle.page.specs.Pages.{place, text, lender, standing, spaces, every, Formed, FirstOut};

    // A page without lines; no byte is changed.
    pub fn new(bytes: &'a mut [u8]) -> Page<'a>
        ensures lines { standing result ≡ [] }
        ensures bytes { text result ≡ bytes.old }
        ensures kept { Formed result }
        ensures lender { lender result ≡ bytes.entry.ghost_name }
    {
        Page { bytes, count: 0 }
    }

    // Takes the first n places for the lines, if they are within the room and in form.
    pub fn adopt(&mut self, n: usize) -> Result<u16, OutOfForm>
        ensures bytes { text self.new ≡ text self.old }
        ensures cases { Adopted (λ p. InForm (place (p - 1) (text self.old))) (every self.old) n (standing self.old) (standing self.new) result }
        ensures ok { OnOk result (Formed self.new) }
        ensures kept { Formed self.old → Formed self.new }
        ensures lender { lender self.new ≡ lender self.old }
    {
        let count = self.first_out(n)?;
        self.count = count;
        Ok(count)
    }

    // n, or the lowest of the places 1 to n that is out of form or beyond the room.
    fn first_out(&self, n: usize) -> Result<u16, OutOfForm>
        ensures { FirstOut self.now n result }
    {
        let room = usize::from(self.room());
        let within = &self.places()[..n.min(room)];
        match within.iter().position(|place| !in_form(place)) {
            Some(k) => Err(OutOfForm {
                place: k as u32 + 1,
            }),
            None if n > room => Err(OutOfForm {
                place: room as u32 + 1,
            }),
            None => Ok(n as u16),
        }
    }

    // The whole places of the bytes.
    fn places(&self) -> &[[u8; LINE_BYTES]]
        ensures places { result.now ≡ first_chunks 46 (length (text self.now) / 46) (text self.now) }
        ensures count { length result.now ≡ length (text self.now) / 46 }
    {
        self.bytes.as_chunks().0
    }
}

#[tactic(auto, using(crate::specs::Pages::rows_length))]
impl LineStore for Page<'_> {
    ghost use Rattle.page.specs.Pages.{text, lender, standing, spaces, Formed, Wrote, within_room, within_cap};

    ghost lines = { λ p. standing p };

    ghost most = { λ p. spaces p };

    ghost keeps = { λ p. Formed p };

    ghost within = { λ p. within_room p };

    ghost capped = { λ p. within_cap p };

    fn count(&self) -> u16 {
        self.count
    }

    fn room(&self) -> u16 {
        (self.bytes.len() / LINE_BYTES).min(MAX_ROOM) as u16
    }

    fn get(&self, n: u16) -> Option<Line> {
        let k = n.checked_sub(1)?;
        let place = self.places()[..self.count as usize].get(k as usize)?;
        Some(decode(place))
    }

    // It writes its own 46 bytes and no other.
    fn put(&mut self, line: Line) -> Result<u16, StoreFault>
        ensures room { spaces self.new ≡ spaces self.old }
        ensures cases { Put (standing self.old) (standing self.new) (spaces self.old) line result }
        ensures kept { Formed self.old → Formed self.new }
        ensures bytes { Wrote (text self.old) (text self.new) (length (standing self.old)) line result }
        ensures lender { lender self.new ≡ lender self.old }
    {
        let n = self.count;
        if n == self.room() {
            return Err(StoreFault { count: n });
        }
        let at = LINE_BYTES * n as usize;
        self.bytes[at..at + LINE_BYTES].copy_from_slice(&encode(line));
        self.count = n + 1;
        Ok(n + 1)
    }

    // It writes no byte.
    fn cut(&mut self, n: u16)
        ensures room { spaces self.new ≡ spaces self.old }
        ensures lines { standing self.new ≡ take n (standing self.old) }
        ensures kept { Formed self.old → Formed self.new }
        ensures bytes { text self.new ≡ text self.old }
        ensures lender { lender self.new ≡ lender self.old }
    {
        self.count = self.count.min(n);
    }
}
