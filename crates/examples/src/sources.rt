// Sources by example: what is read, and the answer to what is not.

use lexer::Tokens;
use lines::{Answer, Line};
use reader::{Node, read};
use std::alloc::Global;
use std::test::Fail;
use tables::LineTable;

#[derive(Debug, Drop)]
struct Differs {
    answer: Answer,
}

// The answer to the source with so many places, after no definitions; 0 with how many places are taken.
fn answer(source: &[u8], places: &mut [Node], heap: Global) -> Answer {
    let mut slots = [Line::default(); 0];
    let listing = LineTable::new(&mut slots);
    match Tokens::new(source) {
        Ok(tokens) => match read(tokens, &listing, places, heap) {
            Ok((_, nodes)) => Answer::Granted(nodes.len().min(65535) as u16),
            Err(fault) => fault.into(),
        },
        Err(fault) => fault.into(),
    }
}

fn is(source: &[u8], expected: Answer, heap: Global) -> Result<(), Fail> {
    let mut places = [Node::Top; 100];
    let answer = answer(source, &mut places, heap);
    if answer == expected {
        Ok(())
    } else {
        Err(Differs { answer })?
    }
}

#[test]
fn what_is_read(rt: HostRuntime) -> Result<(), Fail> {
    let heap = rt.alloc();
    is(b":Top;", Answer::Granted(1), heap)?;
    is(b"fun(X<:Top)fun(f:X)f(top);", Answer::Granted(7), heap)?;
    is(b"judge env type:Top;", Answer::Granted(2), heap)?;
    is(b"(**)top;(* ' \" ~ (* *) *)", Answer::Granted(1), heap)
}

#[test]
fn what_is_not(rt: HostRuntime) -> Result<(), Fail> {
    let heap = rt.alloc();
    is(b":<:", Answer::NoToken(0), heap)?;
    is(b"-5", Answer::NoToken(0), heap)?;
    is(b"(*)", Answer::OpenComment(0), heap)?;
    is(b"(* (* *)", Answer::OpenComment(0), heap)?;
    is(b"abcdefghijklmno;", Answer::LongName(0), heap)?;
    is(b"", Answer::Unexpected(0), heap)?;
    is(b"fun(x:Top;", Answer::Unexpected(9), heap)?;
    is(b"x;", Answer::Unbound(0), heap)?;
    is(b"fun(x:Top)y;", Answer::Unbound(10), heap)
}

#[test]
fn a_place_short(rt: HostRuntime) -> Result<(), Fail> {
    let heap = rt.alloc();
    let mut places = [Node::Top; 2];
    let found = answer(b":Top->Top;", &mut places, heap);
    if found == Answer::TreeFull(1) {
        Ok(())
    } else {
        Err(Differs { answer: found })?
    }
}
