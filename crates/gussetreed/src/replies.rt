// The answers of the calls as numbers: C's interface has no enum.
ghost use Rattle.std.specs.Prelude.{◌≡◌, cond};
ghost use Rattle.portals.specs.Answers.{Answer, DONE, SEARCHED, COUNTER, REGISTER, READY, NOT_READY, refused, answered, new_answer, appended_as, taken_as, read_as, event_answer, reached_answer};
ghost use Rattle.gussetreed.specs.Replies.{reply, reply_of, event_reply_of};

use crate::layout;
use crate::layout::{EventReply, Reply};
use matching::refusals::Refusal;
use portals::answers::{Appended, RequestAnswer};
use state::layout::{Counter, Event};

// An answer, which is told by what it means in document 01's words.
pub trait Tell {
    ghost means: { Self → Answer };

    fn tell(self) -> Reply
        ensures { result ≡ reply_of (means self) };
}

// An answer with its code and values.
fn reply(answer: u32, code: u32, value: u64, second: u64) -> Reply
    ensures { result ≡ reply answer code value second }
{
    Reply {
        answer,
        code,
        value,
        second,
    }
}

impl<A: Tell> Tell for Result<A, Refusal> {
    ghost means = { answered A.means };

    fn tell(self) -> Reply {
        match self {
            Ok(a) => a.tell(),
            Err(refusal) => refusal.tell(),
        }
    }
}

// A refusal gives its number only.
impl Tell for Refusal {
    ghost means = { refused };

    fn tell(self) -> Reply {
        reply(layout::REFUSED, u32::from(self), 0, 0)
    }
}

// One `tell` over the answers that are numbers would be no plainer: each names its own constant.
impl Tell for Appended {
    ghost means = { appended_as };

    fn tell(self) -> Reply {
        match self {
            Appended::Linked(handle) => reply(layout::LINKED, 0, handle as u64, 0),
            Appended::Taken => reply(layout::TAKEN, 0, 0, 0),
        }
    }
}

// Of an unlink, a counter that is set and one that is incremented.
impl Tell for () {
    ghost means = { λ u. DONE };

    fn tell(self) -> Reply {
        reply(layout::DONE, 0, 0, 0)
    }
}

// Of a search: how many.
impl Tell for usize {
    ghost means = { SEARCHED };

    fn tell(self) -> Reply {
        reply(layout::SEARCHED, 0, self as u64, 0)
    }
}

impl Tell for RequestAnswer {
    ghost means = { taken_as };

    fn tell(self) -> Reply {
        match self {
            RequestAnswer::Priority {
                length,
                offset,
                ack,
            } => reply(layout::PRIORITY, ack as u32, length as u64, offset),
            RequestAnswer::Overflow {
                length,
                offset,
                ack,
            } => reply(layout::OVERFLOW, ack as u32, length as u64, offset),
            RequestAnswer::Dropped(ack) => reply(layout::DROPPED, ack as u32, 0, 0),
            RequestAnswer::PermissionViolation(ack) => reply(layout::PERM, ack as u32, 0, 0),
            RequestAnswer::OperationViolation(ack) => reply(layout::OP, ack as u32, 0, 0),
        }
    }
}

impl Tell for Counter {
    ghost means = { λ c. COUNTER c.success c.failure };

    fn tell(self) -> Reply {
        reply(layout::COUNTER, 0, self.success, self.failure)
    }
}

// Of a register: its value.
impl Tell for u64 {
    ghost means = { REGISTER };

    fn tell(self) -> Reply {
        reply(layout::REGISTER, 0, self, 0)
    }
}

// Of a counter's test.
impl Tell for bool {
    ghost means = { λ passed. cond passed READY NOT_READY };

    fn tell(self) -> Reply {
        match self {
            true => reply(layout::READY, 0, 0, 0),
            false => reply(layout::NOT_READY, 0, 0, 0),
        }
    }
}

// Of a poll: the place that is reached.
impl Tell for Option<usize> {
    ghost means = { reached_answer };

    fn tell(self) -> Reply {
        match self {
            Some(place) => reply(layout::REACHED, 0, place as u64, 0),
            None => reply(layout::NONE_REACHED, 0, 0, 0),
        }
    }
}

// Of an event read; the event itself stands beside it, in `event_reply`.
impl Tell for Option<Event> {
    ghost means = { read_as };

    fn tell(self) -> Reply {
        match self {
            Some(_) => reply(layout::EVENT, 0, 0, 0),
            None => reply(layout::NONE, 0, 0, 0),
        }
    }
}

// Of `new`, whose `()` is MADE and not DONE.
pub fn new_reply(a: Result<(), Refusal>) -> Reply
    ensures { result ≡ reply_of (new_answer a) }
{
    match a {
        Ok(()) => reply(layout::MADE, 0, 0, 0),
        Err(refusal) => refusal.tell(),
    }
}

// An event read's answer and code are told as those of any call; the event stands in place of the values, all 0 where there is none.
pub fn event_reply(a: Result<Option<Event>, Refusal>) -> EventReply
    ensures { result ≡ event_reply_of (event_answer a) }
{
    let event = match a {
        Ok(Some(event)) => event,
        _ => Event::default(),
    };
    let Reply { answer, code, .. } = a.tell();
    EventReply {
        answer,
        code,
        event,
    }
}
