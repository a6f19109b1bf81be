// What the search does with a listing, and its limits.

use crate::{Established, Halt, JudgeFault, Steps, Stop, Wait, search};
use actions::{Form, Goal, Nodes, Term};
use lines::{Line, LineStore, code};
use rules::EqualBounds;
use tables::LineTable;

// The empty environment and Top, and then Top is sought as a type: with so many steps, in so much room, with two places.
fn top(most: u32, records: &mut [Line]) -> Result<Established, Stop> {
    let terms = [Term {
        byte: 0,
        line: 0,
        form: Form::Top,
    }];
    let mut table = LineTable::new(records);
    let _ = table.put(Line {
        code: code::ENV_EMPTY,
        ..Line::default()
    });
    let _ = table.put(Line {
        code: code::TYPE_TOP,
        ..Line::default()
    });
    let mut places = [Wait::default(); 2];
    search::<EqualBounds, LineTable, Nodes>(
        &mut table,
        &Nodes::new(&terms),
        &mut places,
        Goal::Type { env: 1, a: 2 },
        Steps { taken: 0, most },
    )
}

#[test]
fn top_is_a_type(rt: HostRuntime) {
    let mut records = [Line::default(); 4];
    let Ok(Established { found, steps }) = top(2, &mut records) else {
        assert!(rt; false);
        return;
    };
    assert_eq!(rt; found.line, 4);
    assert_eq!(rt; steps.taken, 2);
    assert_eq!(rt;
        records[2],
        Line {
            code: code::IS_ENV,
            c1: 1,
            ..Line::default()
        }
    );
    assert_eq!(rt;
        records[3],
        Line {
            code: code::IS_TYPE,
            c1: 1,
            c2: 2,
            c3: 3,
            ..Line::default()
        }
    );
}

#[test]
fn one_step_is_too_few(rt: HostRuntime) {
    let mut records = [Line::default(); 4];
    let Err(stop) = top(1, &mut records) else {
        assert!(rt; false);
        return;
    };
    assert_eq!(rt; stop.halt, Halt::StepsSpent);
    assert_eq!(rt; stop.steps, 1);
}

#[test]
fn three_lines_are_too_few(rt: HostRuntime) {
    let mut records = [Line::default(); 3];
    let Err(stop) = top(2, &mut records) else {
        assert!(rt; false);
        return;
    };
    assert_eq!(rt;
        stop.halt,
        Halt::Fault(JudgeFault::Store(lines::StoreFault { count: 3 }))
    );
    assert_eq!(rt; stop.steps, 2);
}
