// Making a target.
ghost use Rattle.portals.specs.Promises.{NewMet};

use crate::admission;
use matching::refusals::{BadArgument, Refusal};
use state::layout::{Settings, Target};
use state::sizes;

// Makes a new target in a place that its caller lends; beside a refusal, one of size 0. What the place held is not read, and is lost.
pub fn new(place: &mut Target, s: Settings) -> Result<(), Refusal>
    ensures { NewMet s (record { target = place.new; answer = result }) }
{
    *place = Target::empty(0);
    admission::test_argument(s.size <= sizes::MEMORY, BadArgument::Size)?;
    place.size = s.size;
    Ok(())
}
