// The names of the binders around, the innermost first: each binder's body is read with one more, kept on the stack of calls.

ghost use Rattle.std.specs.Prelude.{◌≡◌, length, ◌≤◌};
ghost use Rattle.lexer.specs.Names.{number_of};
ghost use Rattle.parser.specs.Binders.{names};

use lexer::Name;

#[derive(Clone, Copy)]
pub(crate) enum Binders<'b> {
    Outermost,
    Inside(Name, &'b Binders<'b>),
}

impl<'b> Binders<'b> {
    // How many they are.
    pub(crate) fn count(&self) -> usize
        requires { length (names self.now) ≤ 128 }
        ensures { result ≡ length (names self.now) }
    {
        match self {
            Binders::Outermost => 0,
            Binders::Inside(_, around) => around.count() + 1,
        }
    }

    // Which of them binds the name, counted outward from 1.
    pub(crate) fn number_of(&self, name: Name) -> Option<usize>
        requires { length (names self.now) ≤ 128 }
        ensures { result ≡ number_of (names self.now) name }
    {
        match self {
            Binders::Outermost => None,
            Binders::Inside(binder, around) => {
                if *binder == name {
                    Some(1)
                } else {
                    Some(around.number_of(name)? + 1)
                }
            }
        }
    }
}
