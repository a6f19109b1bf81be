// The first lines of a store, those that stand before the line that is tested, and what they say: the tests that the rules share.

ghost use Rattle.std.specs.Prelude.{◌≡◌, ◌+◌, ◌≤◌, length, take, ◌↔◌, IsTrue, MatchOption};
ghost use Rattle.std.specs.List.{Contains};
ghost use Rattle.checker.specs.Decide.{at, pair, triple, judged, raises, puts, bound_is, typing_is, is_env, is_type, is_sub, has_type, binds_term, binds_type};

use lines::{Line, LineStore, code};
use std::marker::Model;

// Kept beside the line that is tested: in a struct of both, each column of the line would be read through it.
#[derive(Drop)]
pub(crate) struct Prefix<'a, S: LineStore> {
    store: &'a S,
    len: u16,
}

impl<'a, S: LineStore> Model for Prefix<'a, S> {
    ghost use Rattle.std.specs.Prelude.{List, ◌≤◌, length, take};
    ghost use Rattle.lines.specs.declared.line.Line.{Line};

    ghost Value = { List Line };

    ghost view = { λ p. take p.len (S.lines p.store.now) };

    ghost invariant = { λ p. p.len ≤ length (S.lines p.store.now) };
}

impl<'a, S: LineStore> Prefix<'a, S> {
    pub(crate) fn new(store: &'a S, len: u16) -> Prefix<'a, S>
        requires { len ≤ length (S.lines store.now) }
        ensures { result ≡ take len (S.lines store.now) }
    {
        Prefix { store, len }
    }

    // Line m, or a line of code 0 where there is none.
    // Kept as a line and no Option: each test asks for a code first, and none asks for 0, so that no test has a case for none.
    pub(crate) fn line(&self, m: u16) -> Line
        ensures { result ≡ at self.now m }
    {
        if m > self.len {
            return Line::default();
        }
        self.store.get(m).unwrap_or_default()
    }

    // The number of the line after them; none after line 65,535.
    pub(crate) fn next(&self) -> Option<u16>
        ensures { MatchOption result (length self.now ≡ 65535) (λ number. number ≡ length self.now + 1) }
    {
        self.len.checked_add(1)
    }

    // Whether l is one of them.
    pub(crate) fn contains(&self, l: Line) -> bool
        ensures { IsTrue result ↔ Contains self.now l }
    {
        self.store
            .iter()
            .take(self.len.into())
            .any(|line| line == l)
    }

    // Whether line p has this code and these first columns.
    // Kept apart by their number of columns, and raises and puts for a j that may be 65,536: over an array of columns each test would build two.
    pub(crate) fn pair(&self, code: u8, p: u16, c1: u16, c2: u16) -> bool
        ensures { result ≡ pair (at self.now) code p c1 c2 }
    {
        let l = self.line(p);
        l.code == code && l.c1 == c1 && l.c2 == c2
    }

    fn triple(&self, code: u8, p: u16, c1: u16, c2: u16, c3: u16) -> bool
        ensures { result ≡ triple (at self.now) code p c1 c2 c3 }
    {
        self.pair(code, p, c1, c2) && self.line(p).c3 == c3
    }

    // Whether line p has one of these codes and these first columns.
    fn judged<const LOW: u8, const HIGH: u8>(&self, p: u16, c1: u16, c2: u16, c3: u16) -> bool
        ensures { result ≡ judged (at self.now) LOW HIGH p c1 c2 c3 }
    {
        let l = self.line(p);
        (LOW..=HIGH).contains(&l.code) && l.c1 == c1 && l.c2 == c2 && l.c3 == c3
    }

    pub(crate) fn raises(&self, p: u16, a: u16, j: u32, c: u16) -> bool
        ensures { result ≡ raises (at self.now) p a j c }
    {
        let l = self.line(p);
        l.code == code::RAISE && l.c1 == a && u32::from(l.c2) == j && l.c3 == c
    }

    pub(crate) fn puts(&self, p: u16, b: u16, j: u32, a: u16, c: u16) -> bool
        ensures { result ≡ puts (at self.now) p b j a c }
    {
        let l = self.line(p);
        l.code == code::PUT && l.c1 == b && u32::from(l.c2) == j && l.c3 == a && l.c4 == c
    }

    pub(crate) fn bound_is(&self, p: u16, e: u16, k: u16, b: u16) -> bool
        ensures { result ≡ bound_is (at self.now) p e k b }
    {
        self.triple(code::BOUND, p, e, k, b)
    }

    pub(crate) fn typing_is(&self, p: u16, e: u16, k: u16, a: u16) -> bool
        ensures { result ≡ typing_is (at self.now) p e k a }
    {
        self.triple(code::TYPING, p, e, k, a)
    }

    pub(crate) fn is_env(&self, p: u16, e: u16) -> bool
        ensures { result ≡ is_env (at self.now) p e }
    {
        let l = self.line(p);
        l.code == code::IS_ENV && l.c1 == e
    }

    pub(crate) fn is_type(&self, p: u16, e: u16, a: u16) -> bool
        ensures { result ≡ is_type (at self.now) p e a }
    {
        self.pair(code::IS_TYPE, p, e, a)
    }

    pub(crate) fn is_sub(&self, p: u16, e: u16, a: u16, b: u16) -> bool
        ensures { result ≡ is_sub (at self.now) p e a b }
    {
        self.judged::<{ code::SUB_REFL }, { code::SUB_ALL_LEAST }>(p, e, a, b)
    }

    pub(crate) fn has_type(&self, p: u16, e: u16, a: u16, t: u16) -> bool
        ensures { result ≡ has_type (at self.now) p e a t }
    {
        self.judged::<{ code::HAS_SUBSUMED }, { code::HAS_REC }>(p, e, a, t)
    }

    // Line f is E,x:A.
    pub(crate) fn binds_term(&self, f: u16, e: u16, a: u16) -> bool
        ensures { result ≡ binds_term (at self.now) f e a }
    {
        self.pair(code::ENV_TERM, f, e, a)
    }

    // Line f is E,X<:A.
    pub(crate) fn binds_type(&self, f: u16, e: u16, a: u16) -> bool
        ensures { result ≡ binds_type (at self.now) f e a }
    {
        self.pair(code::ENV_TYPE, f, e, a)
    }
}
