// The lines of a store, one after another.

ghost use Rattle.std.specs.Prelude.{◌≡◌};
ghost use Rattle.std.specs.Iterator.{YieldsFirst, item_count};

use crate::line::Line;
use crate::store::LineStore;
use std::marker::Model;

// Seen as the lines that are still to come.
#[derive(Drop)]
pub struct Lines<'a, S: LineStore> {
    store: &'a S,
    // how many have come
    passed: u16,
}

impl<'a, S: LineStore> Model for Lines<'a, S> {
    ghost use Rattle.std.specs.Prelude.{List, drop};
    ghost use Rattle.lines.specs.declared.line.Line.{Line};

    ghost Value = { List Line };

    ghost view = { λ i. drop i.passed (S.lines i.store.now) };
}

impl<'a, S: LineStore> Lines<'a, S> {
    pub(crate) fn new(store: &'a S) -> Lines<'a, S>
        ensures { result ≡ S.lines store.now }
    {
        Lines { store, passed: 0 }
    }
}

impl<'a, S: LineStore> Iterator for Lines<'a, S> {
    type Item = Line;

    ghost next_gives = { YieldsFirst (λ lines. lines) };

    ghost remaining = { item_count (λ lines. lines) };

    fn next(&mut self) -> Option<Line> {
        let number = self.passed.checked_add(1)?;
        let line = self.store.get(number)?;
        self.passed = number;
        Some(line)
    }

    fn size_hint(&self) -> (usize, Option<usize>) {
        let left = self.store.count().saturating_sub(self.passed).into();
        (left, Some(left))
    }
}
