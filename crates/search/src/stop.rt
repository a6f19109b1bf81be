// Where and when the search ended with no line.

ghost use Rattle.std.specs.Prelude.{◌≡◌, ◌∷◌, None};
ghost use Rattle.judge.specs.Loop.{placed_in};
ghost use Rattle.tables.specs.Tables.{held};
ghost use Rattle.search.specs.Frames.{wait, stack};
ghost use Rattle.search.specs.Stops.{stopped};
ghost use Rattle.search.specs.Turns.{halted};

use crate::halt::Halt;
use crate::steps::Steps;
use crate::work::{Wait, Work};
use actions::Tree;
use tables::Table;

// byte: that of the innermost term whose own line was not put yet, if there is one
#[derive(Clone, Copy)]
pub struct Stop {
    pub halt: Halt,
    pub byte: Option<u16>,
    pub steps: u32,
}

// What ends with the goal `work` is placed by the innermost term that waits.
pub(crate) fn placed<T: Tree>(
    tree: &T,
    waits: &mut Table<Wait>,
    work: Work,
    halt: Halt,
    steps: u32,
) -> Stop
    ensures { stopped result ≡ placed_in (wait (T.terms tree.now) work ∷ stack (T.terms tree.now) (held waits.old)) (halted halt None steps) }
{
    let mut byte = work.goal.byte(tree);
    while let Some(wait) = waits.pop() {
        byte = byte.or(wait.work.goal.byte(tree));
    }
    Stop { halt, byte, steps }
}

impl Stop {
    // Before any goal is worked on.
    pub(crate) fn before(halt: Halt, steps: Steps) -> Stop
        ensures { stopped result ≡ halted halt None steps.taken }
    {
        Stop {
            halt,
            byte: None,
            steps: steps.taken,
        }
    }
}
