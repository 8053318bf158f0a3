// Document 01, "Request", rule 3: the entry that is chosen. Document 01 names both forms: an enum of a priority place, an overflow place
// or nothing, and a labelled search over the two lists. A list is a number here, as it is in an entry.
ghost use Rattle.std.specs.Prelude.{◌≡◌};
ghost use Rattle.requests.specs.Choice.{is_in, is_candidate, choice_in, choose};

use matching::request::{Arrival, Meeting};
use state::layout::HeldEntry;

// The entry that is chosen: its place among all entries, by the list that it stands in; or nothing.
#[derive(Clone, Copy)]
pub enum Choice {
    Priority(usize),
    Overflow(usize),
    Nothing,
}

// The entry stands in the portal's list of this number: 0 priority, 1 overflow. A retired entry stands in none.
fn is_in(x: &HeldEntry, portal: u16, list: u8) -> bool
    ensures { result ≡ is_in portal list x.now }
{
    x.is_linked() && x.entry.portal == portal && x.entry.list == list
}

// It stands in the list, and matches the request. The portal is no part of an arrival, as the definitions have it.
fn is_candidate(x: &HeldEntry, portal: u16, list: u8, a: &Arrival) -> bool
    ensures { result ≡ is_candidate portal list a.now x.now }
{
    let m = Meeting {
        entry: &x.entry,
        local: x.local,
        arrival: a,
    };
    is_in(x, portal, list) && m.matches()
}

// The choice of a place in the list of this number.
fn choice_in(list: u8, at: usize) -> Choice
    ensures { result ≡ choice_in list at }
{
    if list == 0 {
        Choice::Priority(at)
    } else {
        Choice::Overflow(at)
    }
}

// The first matching entry of the priority list; if there is none, the first of the overflow list.
pub fn choose(entries: &[HeldEntry], portal: u16, a: &Arrival) -> Choice
    ensures { result ≡ choose entries.now portal a.now }
{
    'lists: {
        for list in 0..2u8 {
            for (i, x) in entries.iter().enumerate() {
                if is_candidate(x, portal, list, a) {
                    break 'lists choice_in(list, i);
                }
            }
        }
        Choice::Nothing
    }
}
