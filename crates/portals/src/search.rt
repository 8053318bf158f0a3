// Document 01, "Early messages": the call that searches the unexpected headers (PtlMESearch).
ghost use Rattle.std.specs.Prelude.{◌≡◌};
ghost use Rattle.portals.specs.EarlyMessages.{search_handling};
ghost use Rattle.portals.specs.Promises.{SearchMet};

use crate::admission;
use early::handling::Handling;
use early::{handling, walk};
use matching::entry;
use matching::layout::Entry;
use matching::refusals::Refusal;
use state::layout::Target;

// What a search does with the headers found, by its mode: 0 look, 1 delete. The C interface has the mode in an entry's layout; from a
// number to a type of another crate no `From` may stand.
fn search_handling(mode: u8) -> Handling
    ensures { result ≡ search_handling mode }
{
    if mode == 0 {
        Handling::Look
    } else {
        Handling::Delete
    }
}

// Searches the unexpected headers of the entry's portal, and answers how many it found; the entry has the mode in place of the list.
pub fn search(t: &mut Target, e: Entry) -> Result<usize, Refusal>
    ensures { SearchMet t.old e (record { target = t.new; answer = result }) }
{
    admission::admit(t, entry::test_entry(&e, t.size))?;
    let w = walk::walk_for(t.unexpected.in_use(), &e);
    let found = walk::found_count(t.unexpected.in_use(), &w, &e);
    handling::handle(t, search_handling(e.list), &w, &e);
    Ok(found)
}
