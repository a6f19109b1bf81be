// Listings and what the checker answers of them.

use checker::check;
use lines::{Answer, Cause, Line, LineStore};
use page::Page;
use rules::{EqualBounds, LeastBound, Quantifier};
use std::alloc::Global;
use tables::LineTable;

fn row(code: u8, columns: [u16; 5]) -> Line {
    let [c1, c2, c3, c4, c5] = columns;
    Line {
        code,
        c1,
        c2,
        c3,
        c4,
        c5,
        ..Line::default()
    }
}

fn answer<Q: Quantifier>(heap: Global, records: &mut [Line]) -> Answer {
    let n = records.len();
    let mut table = LineTable::new(records);
    let _ = table.adopt(n);
    Answer::from(check::<Q, LineTable>(&table, heap))
}

// Top is a type in the empty environment.
fn top_is_a_type() -> [Line; 4] {
    [
        row(30, [0, 0, 0, 0, 0]),
        row(10, [0, 0, 0, 0, 0]),
        row(50, [1, 0, 0, 0, 0]),
        row(51, [1, 2, 3, 0, 0]),
    ]
}

#[test]
fn empty_listing_is_sound(rt: HostRuntime) {
    let mut records = [Line::default(); 0];
    assert_eq!(rt;
        answer::<EqualBounds>(rt.alloc(), &mut records),
        Answer::Granted(0)
    );
}

#[test]
fn top_is_accepted(rt: HostRuntime) {
    let mut records = top_is_a_type();
    assert_eq!(rt;
        answer::<EqualBounds>(rt.alloc(), &mut records),
        Answer::Granted(4)
    );
}

#[test]
fn top_is_accepted_on_a_page(rt: HostRuntime) {
    let mut bytes = [0u8; 184];
    let mut page = Page::new(&mut bytes);
    for line in top_is_a_type() {
        let _ = page.put(line);
    }
    assert_eq!(rt;
        Answer::from(check::<EqualBounds, Page>(&page, rt.alloc())),
        Answer::Granted(4)
    );
}

#[test]
fn unknown_code(rt: HostRuntime) {
    let mut records = [row(30, [0, 0, 0, 0, 0]), row(15, [0, 0, 0, 0, 0])];
    assert_eq!(rt;
        answer::<EqualBounds>(rt.alloc(), &mut records),
        Answer::Unsound(2, Cause::Code)
    );
}

#[test]
fn code_that_is_not_admitted(rt: HostRuntime) {
    let mut records = [row(66, [0, 0, 0, 0, 0])];
    assert_eq!(rt;
        answer::<EqualBounds>(rt.alloc(), &mut records),
        Answer::Unsound(1, Cause::Code)
    );
    assert_eq!(rt;
        answer::<LeastBound>(rt.alloc(), &mut records),
        Answer::Unsound(1, Cause::Reference)
    );
}

#[test]
fn column_past_the_last(rt: HostRuntime) {
    let mut records = [row(10, [0, 0, 0, 0, 1])];
    assert_eq!(rt;
        answer::<EqualBounds>(rt.alloc(), &mut records),
        Answer::Unsound(1, Cause::Column)
    );
}

#[test]
fn line_that_names_itself(rt: HostRuntime) {
    let mut records = [row(51, [1, 1, 1, 0, 0])];
    assert_eq!(rt;
        answer::<EqualBounds>(rt.alloc(), &mut records),
        Answer::Unsound(1, Cause::Reference)
    );
}

#[test]
fn repeated_line(rt: HostRuntime) {
    let mut records = [
        row(10, [0, 0, 0, 0, 0]),
        row(30, [0, 0, 0, 0, 0]),
        row(10, [0, 0, 0, 0, 0]),
    ];
    assert_eq!(rt;
        answer::<EqualBounds>(rt.alloc(), &mut records),
        Answer::Unsound(3, Cause::Repeated)
    );
}

#[test]
fn variable_without_number(rt: HostRuntime) {
    let mut records = [row(11, [0, 0, 0, 0, 0])];
    assert_eq!(rt;
        answer::<EqualBounds>(rt.alloc(), &mut records),
        Answer::Unsound(1, Cause::Unfounded)
    );
}

#[test]
fn premise_of_another_environment(rt: HostRuntime) {
    let mut records = [
        row(30, [0, 0, 0, 0, 0]),
        row(10, [0, 0, 0, 0, 0]),
        row(32, [1, 2, 0, 0, 0]),
        row(50, [1, 0, 0, 0, 0]),
        row(51, [3, 2, 4, 0, 0]),
    ];
    assert_eq!(rt;
        answer::<EqualBounds>(rt.alloc(), &mut records),
        Answer::Unsound(5, Cause::Unfounded)
    );
}

// The variable 2 under one binder is raised to 3, the variable 1 stays.
#[test]
fn raising_under_a_binder(rt: HostRuntime) {
    let mut records = [
        row(11, [1, 0, 0, 0, 0]),
        row(11, [2, 0, 0, 0, 0]),
        row(11, [3, 0, 0, 0, 0]),
        row(12, [1, 2, 0, 0, 0]),
        row(14, [4, 0, 0, 0, 0]),
        row(12, [1, 3, 0, 0, 0]),
        row(14, [6, 0, 0, 0, 0]),
        row(40, [1, 1, 1, 0, 0]),
        row(40, [2, 1, 3, 0, 0]),
        row(40, [4, 1, 6, 8, 9]),
        row(40, [5, 0, 7, 10, 0]),
    ];
    assert_eq!(rt;
        answer::<EqualBounds>(rt.alloc(), &mut records),
        Answer::Granted(11)
    );
    if let Some(last) = records.last_mut() {
        *last = row(40, [5, 1, 7, 10, 0]);
    }
    assert_eq!(rt;
        answer::<EqualBounds>(rt.alloc(), &mut records),
        Answer::Unsound(11, Cause::Unfounded)
    );
}
