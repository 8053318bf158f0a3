// Document 01: "The target's state stays with the caller, who lends it to each call." The calls as C sees them: each is the call of its
// name in `portals`, with the answer as numbers, and has a text of its own: C has no generic functions.
//
// A target is lent by a pointer, a slice is a pointer and a length, all else goes by value. What a caller owes is in the header,
// include/gussetreed.h.
ghost use Rattle.gussetreed.specs.Replies.{NewTold, AppendTold, UnlinkTold, SearchTold, PutTold, GetTold, ReadEventTold, SetCounterTold, IncrementTold, ReadCounterTold, ReadRegisterTold, ReadyTold, PollTold};

use crate::layout::{EventReply, Reply};
use crate::replies;
use crate::replies::Tell;
use matching::layout::{Entry, Request};
use portals::{append, counters, events, making, poll, put_get, registers, search, unlink};
use state::layout::{CounterChange, CounterTest, Settings, Target};

// Makes a target of a size in a place that its caller lends. What the place held is not read, and is lost: beside a refusal too,
// where a target of size 0 comes to stand there.
#[unsafe(no_mangle)]
pub extern "C" fn gussetreed_new(place: &mut Target, s: Settings) -> Reply
    ensures { NewTold s (record { target = place.new; answer = result }) }
{
    replies::new_reply(making::new(place, s))
}

// Appends an entry: LINKED or TAKEN.
#[unsafe(no_mangle)]
pub extern "C" fn gussetreed_append(t: &mut Target, e: Entry) -> Reply
    ensures { AppendTold t.old e (record { target = t.new; answer = result }) }
{
    append::append(t, e).tell()
}

// Unlinks an entry by its handle: DONE.
#[unsafe(no_mangle)]
pub extern "C" fn gussetreed_unlink(t: &mut Target, handle: u32) -> Reply
    ensures { UnlinkTold t.old handle (record { target = t.new; answer = result }) }
{
    unlink::unlink(t, handle).tell()
}

// Searches the unexpected headers; the entry has the mode, 0 look or 1 delete, in place of the list: SEARCHED.
#[unsafe(no_mangle)]
pub extern "C" fn gussetreed_search(t: &mut Target, e: Entry) -> Reply
    ensures { SearchTold t.old e (record { target = t.new; answer = result }) }
{
    search::search(t, e).tell()
}

// Takes a put: PRIORITY, OVERFLOW, DROPPED, PERM or OP. Of the slices only the memory may be written.
#[unsafe(no_mangle)]
pub extern "C" fn gussetreed_put(
    t: &mut Target,
    memory: &mut [u8],
    q: Request,
    payload: &[u8],
) -> Reply
    ensures { PutTold t.old memory.old q payload.now (record { target = t.new; answer = result }) memory.new }
{
    put_get::put(t, memory, q, payload).tell()
}

// Takes a get: the answers of a put. Of the slices only the buffer may be written, from its start on.
#[unsafe(no_mangle)]
pub extern "C" fn gussetreed_get(
    t: &mut Target,
    memory: &[u8],
    q: Request,
    buffer: &mut [u8],
) -> Reply
    ensures { GetTold t.old memory.now q buffer.old (record { target = t.new; answer = result }) buffer.new }
{
    put_get::get(t, memory, q, buffer).tell()
}

// Takes the oldest event from the queue: EVENT or NONE.
#[unsafe(no_mangle)]
pub extern "C" fn gussetreed_read_event(t: &mut Target) -> EventReply
    ensures { ReadEventTold t.old (record { target = t.new; answer = result }) }
{
    replies::event_reply(events::read_event(t))
}

// Sets both fields of a counter: DONE.
#[unsafe(no_mangle)]
pub extern "C" fn gussetreed_set_counter(t: &mut Target, x: CounterChange) -> Reply
    ensures { SetCounterTold t.old x (record { target = t.new; answer = result }) }
{
    counters::set_counter(t, x).tell()
}

// Adds to both fields of a counter, modulo 2^64: DONE.
#[unsafe(no_mangle)]
pub extern "C" fn gussetreed_increment(t: &mut Target, x: CounterChange) -> Reply
    ensures { IncrementTold t.old x (record { target = t.new; answer = result }) }
{
    counters::increment(t, x).tell()
}

// Reads a counter: COUNTER.
#[unsafe(no_mangle)]
pub extern "C" fn gussetreed_read_counter(t: &Target, k: u64) -> Reply
    ensures { ReadCounterTold t.now k result }
{
    counters::read_counter(t, k).tell()
}

// Reads a register, 0 drop, 1 permission, 2 operation: REGISTER.
#[unsafe(no_mangle)]
pub extern "C" fn gussetreed_read_register(t: &Target, k: u64) -> Reply
    ensures { ReadRegisterTold t.now k result }
{
    registers::read_register(t, k).tell()
}

// Tests a counter: READY or NOT_READY.
#[unsafe(no_mangle)]
pub extern "C" fn gussetreed_ready(t: &Target, x: CounterTest) -> Reply
    ensures { ReadyTold t.now x result }
{
    counters::ready(t, x).tell()
}

// Polls a list of counters, each with the test at its place in another list: REACHED or NONE_REACHED.
#[unsafe(no_mangle)]
pub extern "C" fn gussetreed_poll(t: &Target, ks: &[u64], tests: &[u64]) -> Reply
    ensures { PollTold t.now ks.now tests.now result }
{
    poll::poll(t, ks, tests).tell()
}
