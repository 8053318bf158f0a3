// Document 01, "Early messages": the call that appends an entry to a list (PtlMEAppend).
ghost use Rattle.std.specs.Prelude.{◌≡◌, ◌<◌};
ghost use Rattle.state.specs.Sizes.{LAST_HANDLE};
ghost use Rattle.state.specs.View.{view_of};
ghost use Rattle.state.specs.Parts.{EntriesFit};
ghost use Rattle.portals.specs.Admission.{Admits};
ghost use Rattle.portals.specs.EarlyMessages.{has_space, append_tests, taken_or_linked, append_handling};
ghost use Rattle.portals.specs.Promises.{AppendMet};

use crate::admission;
use crate::answers::Appended;
use early::handling::Handling;
use early::{handling, walk};
use matching::entry;
use matching::layout::Entry;
use matching::refusals::Refusal;
use state::layout::Target;
use state::sizes;

// A slot is free, and a handle is left.
pub fn has_space(t: &Target) -> bool
    requires { EntriesFit t.now.entries }
    ensures { result ≡ has_space (view_of t.now) }
{
    (t.entries.count < sizes::SLOTS) & (t.last < sizes::LAST_HANDLE)
}

// The tests of an append, in their order.
pub fn append_admitted(t: &Target, e: &Entry) -> Result<(), Refusal>
    ensures { Admits (λ v. append_tests v e.now) t.now result }
{
    admission::admit(t, entry::test_entry(e, t.size))?;
    if !has_space(t) {
        return Err(Refusal::NoSpace);
    }
    Ok(())
}

// TAKEN where USE_ONCE has a fit, else LINKED with the next handle. A branch here leaves
// `append` none, and one proof.
fn taken_or_linked(taken: bool, last: u32) -> Appended
    requires { last < LAST_HANDLE }
    ensures { result ≡ taken_or_linked taken last }
{
    if taken {
        Appended::Taken
    } else {
        Appended::Linked(last + 1)
    }
}

// What it does with the headers found. Only here is an answer a kind of handling: a `From` would be no plainer.
fn append_handling(answer: Appended) -> Handling
    ensures { result ≡ append_handling answer }
{
    match answer {
        Appended::Linked(handle) => Handling::Link(handle),
        Appended::Taken => Handling::Take,
    }
}

// Appends an entry. One for the priority list first walks the unexpected headers of its portal.
pub fn append(t: &mut Target, e: Entry) -> Result<Appended, Refusal>
    ensures { AppendMet t.old e (record { target = t.new; answer = result }) }
{
    append_admitted(t, &e)?;
    let w = walk::walk_if(t.unexpected.in_use(), e.list == 0, &e);
    let taken = walk::found_once(&w, &e);
    let answer = taken_or_linked(taken, t.last);
    handling::handle(t, append_handling(answer), &w, &e);
    Ok(answer)
}
