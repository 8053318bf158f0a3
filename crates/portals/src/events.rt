// Document 01, "Events": the call that reads the event queue.
ghost use Rattle.std.specs.Prelude.{◌≡◌};
ghost use Rattle.portals.specs.Promises.{ReadEventMet};

use crate::admission;
use matching::refusals::Refusal;
use state::layout::{Event, Target};

// Reads the oldest event and takes it from the queue.
pub fn read_event(t: &mut Target) -> Result<Option<Event>, Refusal>
    ensures { ReadEventMet t.old (record { target = t.new; answer = result }) }
{
    admission::test_state(t)?;
    Ok(t.queue.take())
}
