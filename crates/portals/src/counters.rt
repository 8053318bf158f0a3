// Document 01, "Events", its last paragraph: the calls that set, increment, read and test a counting event.
ghost use Rattle.std.specs.Prelude.{◌≡◌};
ghost use Rattle.portals.specs.CounterCalls.{bad_counter_argument, is_ready};
ghost use Rattle.portals.specs.Promises.{SetCounterMet, IncrementMet, ReadCounterMet, ReadyMet};

use crate::admission;
use matching::refusals::{BadArgument, Refusal};
use state::layout::{Counter, CounterChange, CounterTest, Target};
use state::sizes;

// The test of a call on a counter.
pub fn test_counter(k: u64) -> Result<(), BadArgument>
    ensures { result ≡ bad_counter_argument k }
{
    admission::test_argument(k < sizes::COUNTERS, BadArgument::Counter)
}

// "Ready: success at least the test, or failure not 0."
fn is_ready(c: Counter, test: u64) -> bool
    ensures { result ≡ is_ready c test }
{
    (test <= c.success) | (c.failure != 0)
}

// Sets both fields of a counter. The third of the three fields names the
// counter, and nowhere else is a change a counter: a conversion would be no plainer.
pub fn set_counter(t: &mut Target, to: CounterChange) -> Result<(), Refusal>
    ensures { SetCounterMet t.old to (record { target = t.new; answer = result }) }
{
    admission::admit(t, test_counter(to.counter))?;
    let c = Counter {
        success: to.success,
        failure: to.failure,
    };
    t.counters.set(to.counter, c);
    Ok(())
}

// Adds to both fields of a counter, modulo 2^64.
pub fn increment(t: &mut Target, x: CounterChange) -> Result<(), Refusal>
    ensures { IncrementMet t.old x (record { target = t.new; answer = result }) }
{
    admission::admit(t, test_counter(x.counter))?;
    let c = t.counters.at(x.counter).increased_by(x.success, x.failure);
    t.counters.set(x.counter, c);
    Ok(())
}

// Reads both fields of a counter. A read of a register differs in its test and its part: one function over both would be no plainer.
pub fn read_counter(t: &Target, k: u64) -> Result<Counter, Refusal>
    ensures { ReadCounterMet t.now k result }
{
    admission::admit(t, test_counter(k))?;
    Ok(t.counters.at(k))
}

// Tests a counter: whether it is ready.
pub fn ready(t: &Target, asked: CounterTest) -> Result<bool, Refusal>
    ensures { ReadyMet t.now asked result }
{
    admission::admit(t, test_counter(asked.counter))?;
    let c = t.counters.at(asked.counter);
    Ok(is_ready(c, asked.test))
}
