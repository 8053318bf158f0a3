// What a call hands back to a host: unsigned numbers in C's layout, with no padding. What each number means is `reply_of` of the
// specification, and for the event read `event_reply_of`.
use state::layout::Event;

// An answer as numbers. A number that its answer has no use for is 0.
#[repr(C)]
#[derive(Clone, Copy)]
pub struct Reply {
    // Which answer it is: one of the numbers below.
    pub answer: u32,
    // REFUSED: the refusal. PRIORITY, OVERFLOW, DROPPED, PERM, OP: the ack.
    pub code: u32,
    // LINKED: the handle. SEARCHED: how many. PRIORITY, OVERFLOW: the accepted length. COUNTER: its success. REGISTER: its value.
    // REACHED: the place in the list, from 0.
    pub value: u64,
    // PRIORITY, OVERFLOW: the offset. COUNTER: its failure.
    pub second: u64,
}

// The answer of an event read.
#[repr(C)]
#[derive(Clone, Copy)]
pub struct EventReply {
    // EVENT, NONE or REFUSED.
    pub answer: u32,
    // REFUSED: the refusal.
    pub code: u32,
    // EVENT: the oldest event. Else all its numbers are 0.
    pub event: Event,
}

// The answers.
pub const REFUSED: u32 = 0;

pub const MADE: u32 = 1;

pub const LINKED: u32 = 2;

pub const TAKEN: u32 = 3;

pub const DONE: u32 = 4;

pub const SEARCHED: u32 = 5;

pub const PRIORITY: u32 = 6;

pub const OVERFLOW: u32 = 7;

pub const DROPPED: u32 = 8;

pub const PERM: u32 = 9;

pub const OP: u32 = 10;

pub const EVENT: u32 = 11;

pub const NONE: u32 = 12;

pub const COUNTER: u32 = 13;

pub const REGISTER: u32 = 14;

pub const READY: u32 = 15;

pub const NOT_READY: u32 = 16;

pub const REACHED: u32 = 17;

pub const NONE_REACHED: u32 = 18;

// The refusals.
pub const BAD_STATE: u32 = 1;

pub const BAD_MEMORY: u32 = 2;

pub const ARG_INVALID: u32 = 3;

pub const NO_SPACE: u32 = 4;

pub const IN_USE: u32 = 5;
