// What terms' names mean, on the heap: of all that is in scope, each name with the nearest that has it.

ghost use Rattle.std.specs.Prelude.{◌≡◌, ◌<◌, ◌^◌, ◌-◌, List, [], ◌∷◌, length, Option, OnOk};
ghost use Rattle.lexer.specs.declared.name.Name.{Name as TermName};
ghost use Rattle.scope.specs.Index.{TermsHold};
ghost use Rattle.scope.specs.Scope.{number};

use lexer::Name;
use std::alloc::{AllocError, Global};
use std::collections::HashMap;

// Kept as how many stand before each and no number, for that would grow with each that is bound after it.
#[derive(Drop)]
pub(crate) struct Terms {
    before: HashMap<Name, usize>,
    // how many are in scope
    count: usize,
}

impl Terms {
    pub(crate) fn new(heap: Global) -> Terms
        ensures { TermsHold result [] }
    {
        Terms {
            before: HashMap::new(heap),
            count: 0,
        }
    }

    pub(crate) fn bind(&mut self, name: Name) -> Result<(), AllocError>
        ensures { OnOk result ((names : List (Option TermName)) → length names < 2 ^ 64 - 1 → TermsHold self.old names → TermsHold self.new (Some name ∷ names)) }
    {
        self.before.insert(name, self.count)?;
        self.count = self.count.saturating_add(1);
        Ok(())
    }

    // One more term, which no name means.
    pub(crate) fn bind_unnamed(&mut self)
        ensures { (names : List (Option TermName)) → length names < 2 ^ 64 - 1 → TermsHold self.old names → TermsHold self.new (None ∷ names) }
    {
        self.count = self.count.saturating_add(1);
    }

    pub(crate) fn number(&self, name: Name) -> Option<usize>
        ensures { (names : List (Option TermName)) → TermsHold self.now names → result ≡ number names name }
    {
        let before = self.before.get(&name)?;
        Some(self.count.saturating_sub(*before))
    }
}
