// The worked listing's early message, with a write of the host in between: the theorem speaks of what the calls do.
ghost use Rattle.conservation.specs.Example.{Example};

use matching::entry::{ANY, NO_COUNTER};
use matching::layout::{Entry, Request};
use portals::{append, making, put_get};
use state::layout::{Settings, Target};

// What the calls leave.
#[derive(Clone, Copy)]
pub struct Left {
    pub target: Target,
    pub memory: [u8; 16],
}

// The overflow entry of the worked listing: it allows puts and manages its own offset.
const OVERFLOW_ENTRY: Entry = Entry {
    portal: 0,
    list: 1,
    counter: NO_COUNTER,
    options: 5,
    start: 0,
    length: 8,
    minfree: 0,
    uid: ANY,
    nid: ANY,
    pid: ANY,
    matchbits: 0,
    ignorebits: u64::MAX,
    user: 7,
};

// The priority entry that takes the message: it allows puts, and is used once.
const TAKING_ENTRY: Entry = Entry {
    portal: 0,
    list: 0,
    counter: NO_COUNTER,
    options: 17,
    start: 8,
    length: 4,
    minfree: 0,
    uid: ANY,
    nid: ANY,
    pid: ANY,
    matchbits: 5,
    ignorebits: 0,
    user: 8,
};

// The put of `abc`.
const REQUEST: Request = Request {
    portal: 0,
    ack: 1,
    nid: 1,
    pid: 2,
    uid: 3,
    matchbits: 5,
    offset: 0,
    hdrdata: 9,
};

// `abc` is put early into an overflow entry, the host writes behind that entry's region, and an append takes the message.
pub fn early_message() -> Left
    ensures { Example result }
{
    let mut target = Target::empty(0);
    let mut memory = [0u8; 16];
    let _ = making::new(&mut target, Settings { size: 16 });
    let _ = append::append(&mut target, OVERFLOW_ENTRY);
    let _ = put_get::put(&mut target, &mut memory, REQUEST, b"abc");
    memory[12] = 7;
    let _ = append::append(&mut target, TAKING_ENTRY);
    Left { target, memory }
}
