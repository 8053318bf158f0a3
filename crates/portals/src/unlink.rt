// Document 01, "Early messages": the call that unlinks an entry (PtlMEUnlink).
ghost use Rattle.portals.specs.EarlyMessages.{UnlinkTested};
ghost use Rattle.portals.specs.Promises.{UnlinkMet};

use crate::admission;
use matching::refusals::{BadArgument, Refusal};
use state::layout::Target;
use state::{entries, unexpected};

// The tests of an unlink, in their order, and the place of the entry that is linked with the handle.
pub fn unlink_tested(t: &Target, handle: u32) -> Result<usize, Refusal>
    ensures { UnlinkTested t.now handle result }
{
    admission::test_state(t)?;
    let at = entries::linked_place(t.entries.in_use(), handle).ok_or(BadArgument::Handle)?;
    if unexpected::is_named(t.unexpected.in_use(), handle) {
        return Err(Refusal::InUse);
    }
    Ok(at)
}

// Unlinks an entry, without an event.
pub fn unlink(t: &mut Target, handle: u32) -> Result<(), Refusal>
    ensures { UnlinkMet t.old handle (record { target = t.new; answer = result }) }
{
    let at = unlink_tested(t, handle)?;
    t.entries.remove(at);
    Ok(())
}
