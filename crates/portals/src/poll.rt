// Document 01, "Events", its last paragraph: the call that polls counting events.
ghost use Rattle.std.specs.Prelude.{◌≡◌, length};
ghost use Rattle.matching.specs.Entry.{is_counter};
ghost use Rattle.state.specs.Lists.{every};
ghost use Rattle.portals.specs.CounterCalls.{bad_poll_argument, reached_from};
ghost use Rattle.portals.specs.Promises.{PollMet};

use crate::admission;
use matching::refusals::{BadArgument, Refusal};
use state::layout::{Counters, Target};
use state::sizes;

// Every counter of the list is one of 0 to 15.
fn all_counters(ks: &[u64]) -> bool
    ensures { result ≡ every is_counter ks.now }
{
    ks.iter().all(|k| *k < sizes::COUNTERS)
}

// The tests of a poll, over lists "of equal length (else ARG_INVALID)". Every counter is tested, whatever is reached before it.
pub fn test_lists(ks: &[u64], tests: &[u64]) -> Result<(), BadArgument>
    ensures { result ≡ bad_poll_argument ks.now tests.now }
{
    if !all_counters(ks) {
        return Err(BadArgument::Counter);
    }
    admission::test_argument(ks.len() == tests.len(), BadArgument::ListLength)
}

// "the lowest place whose success has reached its test, or NONE_REACHED": the search is left with the place. There are two lists, as
// document 01 names them.
fn lowest_reached(cs: &Counters, ks: &[u64], tests: &[u64]) -> Option<usize>
    requires { length ks.now ≡ length tests.now }
    ensures { result ≡ reached_from cs.now.slots 0 ks.now tests.now }
{
    'places: {
        for (i, k) in ks.iter().enumerate() {
            if tests[i] <= cs.at(*k).success {
                break 'places Some(i);
            }
        }
        None
    }
}

// Polls a list of counters, each with the test at its place in another list, as document 01 names them.
pub fn poll(t: &Target, ks: &[u64], tests: &[u64]) -> Result<Option<usize>, Refusal>
    ensures { PollMet t.now ks.now tests.now result }
{
    admission::admit(t, test_lists(ks, tests))?;
    Ok(lowest_reached(&t.counters, ks, tests))
}
