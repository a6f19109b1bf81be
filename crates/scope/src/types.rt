// What types' names mean, on the heap: the binders and the definitions that are in scope, each name with the nearest that gives it.

ghost use Rattle.std.specs.Prelude.{◌≡◌, ℕ, ◌<◌, ◌^◌, ◌-◌, List, [], ◌∷◌, OnOk};
ghost use Rattle.scope.specs.Index.{TypesHold, meaning_shown};
ghost use Rattle.scope.specs.Scope.{TypeGiver, binder, definition, variables, meaning};

use lexer::Name;
use std::alloc::{AllocError, Global};
use std::collections::HashMap;

// What a type's name means: the type variable of this number, or the type of this line.
#[derive(Clone, Copy)]
pub(crate) enum Meaning {
    Variable(usize),
    Line(u16),
}

// Kept as how many stand before it and no number, for that would grow with each that is bound after it.
#[derive(Clone, Copy, Drop)]
pub(crate) enum Given {
    // by the type variable that so many stand before
    After(usize),
    // by the definition of this line's type
    Line(u16),
}

// Kept with saturating counts, here and for terms: none is ever so large, and a plain sum would ask callers for a bound.
#[derive(Drop)]
pub(crate) struct Types {
    given: HashMap<Name, Given>,
    // how many type variables are in scope
    count: usize,
}

impl Types {
    pub(crate) fn new(heap: Global) -> Types
        ensures { TypesHold result [] }
    {
        Types {
            given: HashMap::new(heap),
            count: 0,
        }
    }

    pub(crate) fn bind(&mut self, name: Name) -> Result<(), AllocError>
        ensures { OnOk result ((givers : List (TypeGiver ℕ)) → variables givers < 2 ^ 64 - 1 → TypesHold self.old givers → TypesHold self.new (binder name ∷ givers)) }
    {
        self.given.insert(name, Given::After(self.count))?;
        self.count = self.count.saturating_add(1);
        Ok(())
    }

    pub(crate) fn define(&mut self, name: Name, line: u16) -> Result<(), AllocError>
        ensures { OnOk result ((givers : List (TypeGiver ℕ)) → TypesHold self.old givers → TypesHold self.new (definition name line ∷ givers)) }
    {
        self.given.insert(name, Given::Line(line))?;
        Ok(())
    }

    pub(crate) fn meaning(&self, name: Name) -> Option<Meaning>
        ensures { (givers : List (TypeGiver ℕ)) → TypesHold self.now givers → meaning_shown result ≡ meaning givers name }
    {
        match *self.given.get(&name)? {
            Given::After(before) => Some(Meaning::Variable(self.count.saturating_sub(before))),
            Given::Line(line) => Some(Meaning::Line(line)),
        }
    }
}
