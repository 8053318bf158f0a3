// Document 01: "The target's state stays with the caller, who lends it to each call." The calls on a lent target.
//
// A call that may change the state takes the target by `&mut`, calls the one of its name in `by_value` and stores the state that comes
// back, after a refusal the very same one (but see `new`). A call that only reads takes it by `&`. What a call does is said at that
// call in `portals`: the promise here is its record, of the target as it was lent and as it is left.
ghost use Rattle.portals.specs.Promises.{NewMet, AppendMet, UnlinkMet, SearchMet, PutMet, GetMet, ReadEventMet, SetCounterMet, IncrementMet, ReadCounterMet, ReadRegisterMet, ReadyMet, PollMet};

use crate::by_value;
use matching::layout::{Entry, Request};
use matching::refusals::Refusal;
use portals::answers::{Appended, Done, RequestAnswer};
use state::layout::{Counter, CounterChange, CounterTest, Event, Settings, Target};

// A call by value, made on what a lent target holds: the state that comes back is stored there.
fn on_lent<A, F: FnOnce(Target) -> Done<A>>(t: &mut Target, call: F) -> A
    requires { F.IsAlwaysCallable call }
    ensures { F.post call t.old (record { target = t.new; answer = result }) }
{
    let r = call(*t);
    *t = r.target;
    r.answer
}

// Makes a target in a place that its caller lends. What the place held is not read, and is lost: beside a refusal too, where a target
// of size 0 comes to stand there. `on_lent` would read it.
pub fn new(place: &mut Target, s: Settings) -> Result<(), Refusal>
    ensures { NewMet s (record { target = place.new; answer = result }) }
{
    let r = by_value::new(s);
    *place = r.target;
    r.answer
}

pub fn append(t: &mut Target, e: Entry) -> Result<Appended, Refusal>
    ensures { AppendMet t.old e (record { target = t.new; answer = result }) }
{
    on_lent(t, |t| by_value::append(t, e))
}

pub fn unlink(t: &mut Target, handle: u32) -> Result<(), Refusal>
    ensures { UnlinkMet t.old handle (record { target = t.new; answer = result }) }
{
    on_lent(t, |t| by_value::unlink(t, handle))
}

pub fn search(t: &mut Target, e: Entry) -> Result<usize, Refusal>
    ensures { SearchMet t.old e (record { target = t.new; answer = result }) }
{
    on_lent(t, |t| by_value::search(t, e))
}

// Written out, as `get` is, for the reason that `put` of `by_value` gives.
pub fn put(
    t: &mut Target,
    memory: &mut [u8],
    q: Request,
    payload: &[u8],
) -> Result<RequestAnswer, Refusal>
    ensures { PutMet t.old memory.old q payload.now (record { target = t.new; answer = result }) memory.new }
{
    let r = by_value::put(*t, memory, q, payload);
    *t = r.target;
    r.answer
}

pub fn get(
    t: &mut Target,
    memory: &[u8],
    q: Request,
    reply: &mut [u8],
) -> Result<RequestAnswer, Refusal>
    ensures { GetMet t.old memory.now q reply.old (record { target = t.new; answer = result }) reply.new }
{
    let r = by_value::get(*t, memory, q, reply);
    *t = r.target;
    r.answer
}

pub fn read_event(t: &mut Target) -> Result<Option<Event>, Refusal>
    ensures { ReadEventMet t.old (record { target = t.new; answer = result }) }
{
    on_lent(t, by_value::read_event)
}

pub fn set_counter(t: &mut Target, x: CounterChange) -> Result<(), Refusal>
    ensures { SetCounterMet t.old x (record { target = t.new; answer = result }) }
{
    on_lent(t, |t| by_value::set_counter(t, x))
}

pub fn increment(t: &mut Target, x: CounterChange) -> Result<(), Refusal>
    ensures { IncrementMet t.old x (record { target = t.new; answer = result }) }
{
    on_lent(t, |t| by_value::increment(t, x))
}

pub fn read_counter(t: &Target, k: u64) -> Result<Counter, Refusal>
    ensures { ReadCounterMet t.now k result }
{
    by_value::read_counter(*t, k)
}

pub fn read_register(t: &Target, k: u64) -> Result<u64, Refusal>
    ensures { ReadRegisterMet t.now k result }
{
    by_value::read_register(*t, k)
}

pub fn ready(t: &Target, x: CounterTest) -> Result<bool, Refusal>
    ensures { ReadyMet t.now x result }
{
    by_value::ready(*t, x)
}

// Two lists, as document 01 names them.
pub fn poll(t: &Target, ks: &[u64], tests: &[u64]) -> Result<Option<usize>, Refusal>
    ensures { PollMet t.now ks.now tests.now result }
{
    by_value::poll(*t, ks, tests)
}
