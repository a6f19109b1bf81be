// The two stores by example.

use lines::{Answer, Line, LineStore, StoreFault};
use page::Page;
use std::test::Fail;
use tables::LineTable;

const LAST: Line = Line {
    code: 255,
    c1: 65535,
    c2: 0,
    c3: 1,
    c4: 10,
    c5: 999,
    c6: 10000,
    c7: 65535,
};

// What was found, where it is not what was expected.
#[derive(Debug, Drop)]
struct Differs<T> {
    found: T,
    expected: T,
}

fn same<T: PartialEq + Drop>(found: T, expected: T) -> Result<(), Differs<T>> {
    if found == expected {
        Ok(())
    } else {
        Err(Differs { found, expected })
    }
}

fn put_get_cut<S: LineStore>(s: &mut S) -> Result<(), Fail> {
    same(s.count(), 0)?;
    same(s.room(), 2)?;
    same(s.put(LAST), Ok(1))?;
    same(s.put(Line::default()), Ok(2))?;
    same(s.put(Line::default()), Err(StoreFault { count: 2 }))?;
    same(s.get(0), None)?;
    same(s.get(1), Some(LAST))?;
    same(s.get(2), Some(Line::default()))?;
    same(s.get(3), None)?;
    s.cut(3);
    same(s.count(), 2)?;
    s.cut(1);
    same(s.count(), 1)?;
    same(s.get(2), None)?;
    Ok(())
}

#[test]
fn table() -> Result<(), Fail> {
    let mut slots = [Line::default(); 2];
    put_get_cut(&mut LineTable::new(&mut slots))
}

#[test]
fn page(rt: HostRuntime) -> Result<(), Fail> {
    let mut bytes = [b'x'; 100];
    put_get_cut(&mut Page::new(&mut bytes))?;
    assert!(rt; bytes[99] == b'x');
    assert!(rt; &bytes[0..46] == b"255 65535     0     1    10   999 10000 65535\n".as_slice());
    Ok(())
}

#[test]
fn no_room(rt: HostRuntime) {
    let mut bytes = [b'x'; 45];
    let mut page = Page::new(&mut bytes);
    assert_eq!(rt; page.room(), 0);
    assert_eq!(rt; page.put(Line::default()), Err(StoreFault { count: 0 }));
    assert_eq!(rt; Answer::from(page.adopt(0)), Answer::Granted(0));
    assert_eq!(rt; Answer::from(page.adopt(1)), Answer::OutOfForm(1));
}

#[test]
fn places_in_and_out_of_form(rt: HostRuntime) {
    let mut bytes =
        *b" 30     0     0     0     0     0     0     0\n010     0     0     0     0     0     0     0\n";
    let mut page = Page::new(&mut bytes);
    assert_eq!(rt; Answer::from(page.adopt(1)), Answer::Granted(1));
    assert_eq!(rt; Answer::from(page.adopt(2)), Answer::OutOfForm(2));
    assert_eq!(rt; page.count(), 1);
    assert_eq!(rt; Answer::from(page.adopt(3)), Answer::OutOfForm(2));
}
