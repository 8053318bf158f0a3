// The calls by value: each calls the one of its name in `portals` on the target that it is handed, and hands back the state that this
// leaves beside the answer, after a refusal the very same state. What a call does is said at that call in `portals`, and the promise is
// the one there. Document 01 names this form: a core by value, and thin functions over it, which are in lent.rt.
ghost use Rattle.std.specs.Fn.{FnOnceReturnsAtMut};
ghost use Rattle.portals.specs.Promises.{NewMet, AppendMet, UnlinkMet, SearchMet, PutMet, GetMet, ReadEventMet, SetCounterMet, IncrementMet, ReadCounterMet, ReadRegisterMet, ReadyMet, PollMet};

use matching::layout::{Entry, Request};
use matching::refusals::Refusal;
use portals::answers::{Appended, Done, RequestAnswer};
use portals::{append, counters, events, making, poll, put_get, registers, search, unlink};
use state::layout::{Counter, CounterChange, CounterTest, Event, Settings, Target};

// A call in place, made on a copy of the target: the copy is handed back as the call leaves it.
fn on_copy<A, F: FnOnce(&mut Target) -> A>(mut t: Target, call: F) -> Done<A>
    requires { F.IsAlwaysCallable call }
    ensures { FnOnceReturnsAtMut F.FnOnce call t result.answer result.target }
{
    let answer = call(&mut t);
    Done { target: t, answer }
}

// Makes a target: beside a refusal, one of size 0.
pub fn new(s: Settings) -> Done<Result<(), Refusal>>
    ensures { NewMet s result }
{
    on_copy(Target::empty(0), |t| making::new(t, s))
}

pub fn append(t: Target, e: Entry) -> Done<Result<Appended, Refusal>>
    ensures { AppendMet t e result }
{
    on_copy(t, |t| append::append(t, e))
}

pub fn unlink(t: Target, handle: u32) -> Done<Result<(), Refusal>>
    ensures { UnlinkMet t handle result }
{
    on_copy(t, |t| unlink::unlink(t, handle))
}

pub fn search(t: Target, e: Entry) -> Done<Result<usize, Refusal>>
    ensures { SearchMet t e result }
{
    on_copy(t, |t| search::search(t, e))
}

// Written out, as `get` is: what a call leaves of a slice that its closure has captured was not proved. The parameters are those that
// document 01 names.
pub fn put(
    mut t: Target,
    memory: &mut [u8],
    q: Request,
    payload: &[u8],
) -> Done<Result<RequestAnswer, Refusal>>
    ensures { PutMet t memory.old q payload.now result memory.new }
{
    let answer = put_get::put(&mut t, memory, q, payload);
    Done { target: t, answer }
}

// The parameters are those that document 01 names.
pub fn get(
    mut t: Target,
    memory: &[u8],
    q: Request,
    reply: &mut [u8],
) -> Done<Result<RequestAnswer, Refusal>>
    ensures { GetMet t memory.now q reply.old result reply.new }
{
    let answer = put_get::get(&mut t, memory, q, reply);
    Done { target: t, answer }
}

pub fn read_event(t: Target) -> Done<Result<Option<Event>, Refusal>>
    ensures { ReadEventMet t result }
{
    on_copy(t, events::read_event)
}

pub fn set_counter(t: Target, x: CounterChange) -> Done<Result<(), Refusal>>
    ensures { SetCounterMet t x result }
{
    on_copy(t, |t| counters::set_counter(t, x))
}

pub fn increment(t: Target, x: CounterChange) -> Done<Result<(), Refusal>>
    ensures { IncrementMet t x result }
{
    on_copy(t, |t| counters::increment(t, x))
}

pub fn read_counter(t: Target, k: u64) -> Result<Counter, Refusal>
    ensures { ReadCounterMet t k result }
{
    counters::read_counter(&t, k)
}

pub fn read_register(t: Target, k: u64) -> Result<u64, Refusal>
    ensures { ReadRegisterMet t k result }
{
    registers::read_register(&t, k)
}

pub fn ready(t: Target, x: CounterTest) -> Result<bool, Refusal>
    ensures { ReadyMet t x result }
{
    counters::ready(&t, x)
}

// Two lists, as document 01 names them.
pub fn poll(t: Target, ks: &[u64], tests: &[u64]) -> Result<Option<usize>, Refusal>
    ensures { PollMet t ks.now tests.now result }
{
    poll::poll(&t, ks, tests)
}
