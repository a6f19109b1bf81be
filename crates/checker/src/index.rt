// An index of lines by their hash. It holds numbers of lines and no lines: for 65,535 of them 0.4 megabytes, where a set of the lines takes 2.3.

ghost use Rattle.std.specs.Prelude.{◌≡◌, ◌+◌, ◌<◌, List, [], ◌∷◌, ◌++◌, ◌↔◌, length, IfOk, OnOk, IsTrue, vec_len};
ghost use Rattle.std.specs.List.{Contains};
ghost use Rattle.checker.specs.Indexes.{hash, four, slot_of, IndexOf};
ghost use Rattle.lines.specs.declared.line.Line.{Line};

use crate::prefix::Prefix;
use lines::{Line, LineStore};
use std::alloc::{AllocError, Global};
use std::hash::{FoldHasher, Hasher};

// For each slot the latest line in it, and for each line the latest before it in the same slot; 0 where there is none.
// Kept as two arrays of numbers: the library's sets hold what they are asked for, here the lines, a second time.
#[derive(Drop)]
pub(crate) struct Index {
    heads: Vec<u16>,
    next: Vec<u16>,
}

// Four numbers at a time: two steps of the library's hasher, where the derived hash takes eight.
fn hash(l: Line) -> u64
    ensures { result ≡ hash l }
{
    let mut hasher = FoldHasher::default();
    hasher.write_u64(four(l.code.into(), l.c1, l.c2, l.c3));
    hasher.write_u64(four(l.c4, l.c5, l.c6, l.c7));
    hasher.finish()
}

fn four(a: u16, b: u16, c: u16, d: u16) -> u64
    ensures { result ≡ four a b c d }
{
    u64::from(a) + (u64::from(b) << 16) + (u64::from(c) << 32) + (u64::from(d) << 48)
}

impl Index {
    // With no line in it, and room for so many.
    pub(crate) fn new(heap: Global, room: u16) -> Result<Index, AllocError>
        ensures { IfOk result (IndexOf []) }
    {
        let heads = vec![in heap; 0; 2 * usize::from(room) + 1]?;
        let next = Vec::with_capacity(heap, room.into())?;
        Ok(Index { heads, next })
    }

    // The slot of l.
    pub(crate) fn slot(&self, l: Line) -> usize
        requires { 0 < vec_len self.now.heads }
        ensures value { result ≡ slot_of (vec_len self.now.heads) l }
        ensures within { result < vec_len self.now.heads }
    {
        (hash(l) % self.heads.len() as u64) as usize
    }

    // Whether l stands among the lines in it, which are those before.
    pub(crate) fn holds<S: LineStore>(&self, before: &Prefix<S>, slot: usize, l: Line) -> bool
        requires index { IndexOf before.now self.now }
        requires slot { slot ≡ slot_of (vec_len self.now.heads) l }
        requires within { slot < vec_len self.now.heads }
        ensures { IsTrue result ↔ Contains before.now l }
    {
        let mut m = self.heads[slot];
        // Kept as a loop: m is the place of the next number in the array.
        while m != 0 {
            if before.line(m) == l {
                return true;
            }
            m = self.next[m as usize - 1];
        }
        false
    }

    // Takes l as the next line, which has this number.
    pub(crate) fn add(&mut self, slot: usize, number: u16, l: Line) -> Result<(), AllocError>
        requires { slot < vec_len self.old.heads }
        ensures { OnOk result ((before : List Line) → slot ≡ slot_of (vec_len self.old.heads) l → number ≡ length before + 1 → IndexOf before self.old → IndexOf (before ++ l ∷ []) self.new) }
    {
        self.next.push(self.heads[slot])?;
        self.heads[slot] = number;
        Ok(())
    }
}
