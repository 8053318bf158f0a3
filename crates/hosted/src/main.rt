// The program `hosted`: a list of calls with those that no script has, which are new, ready and poll. Each call is made on two targets,
// on the one which is lent to it, and on the other by value. Both answers are printed, a line for each: every two lines are to say the
// same.
#![tactic(auto)]

pub mod calls;
pub mod said;

use crate::calls::Pair;
use matching::layout::{Entry, Request};
use state::layout::CounterTest;
use std::io;

// An entry of the priority list at portal 0, for the puts of any initiator with match bits 5, which counts them in counter 3.
fn entry() -> Entry {
    Entry {
        portal: 0,
        list: 0,
        counter: 3,
        options: 4097,
        start: 16,
        length: 8,
        minfree: 0,
        uid: 4294967295,
        nid: 4294967295,
        pid: 4294967295,
        matchbits: 5,
        ignorebits: 0,
        user: 7,
    }
}

fn request() -> Request {
    Request {
        portal: 0,
        ack: 1,
        nid: 1,
        pid: 2,
        uid: 3,
        matchbits: 5,
        offset: 0,
        hdrdata: 9,
    }
}

// A target of 64 bytes with an entry. In its place a target is refused, and one of size 0 is there, which has no room for the entry.
fn refused(p: &mut Pair) -> io::Result<()> {
    p.new(0, 64)?;
    p.append(1, entry())?;
    p.new(2, 65537)?;
    p.append(3, entry())
}

// A new target again, on which handles begin with 1.
fn made(p: &mut Pair) -> io::Result<()> {
    p.new(4, 64)?;
    p.append(5, entry())
}

// A message, and whether the entry's counter is ready before and after it.
fn counted(p: &mut Pair) -> io::Result<()> {
    p.ready(
        6,
        CounterTest {
            counter: 3,
            test: 1,
        },
    )?;
    p.put(7, request(), b"abcd")?;
    p.ready(
        8,
        CounterTest {
            counter: 3,
            test: 1,
        },
    )
}

// Counters that are polled, and a counter and a list that are refused.
fn polled(p: &Pair) -> io::Result<()> {
    p.poll(9, &[2, 3], &[1, 1])?;
    p.poll(10, &[3, 2], &[2, 1])?;
    p.poll(11, &[2, 3], &[1])?;
    p.ready(
        12,
        CounterTest {
            counter: 16,
            test: 0,
        },
    )
}

// The list.
fn main(rt: HostRuntime) -> io::Result<()> {
    let mut p = Pair::places(rt.stdout());
    refused(&mut p)?;
    made(&mut p)?;
    counted(&mut p)?;
    polled(&p)
}
