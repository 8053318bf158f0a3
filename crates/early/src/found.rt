// A walk with the headers that it went over and the entry that it is for: what it found, and what it left.
ghost use Rattle.std.specs.Prelude.{◌≡◌, ◌++◌};
ghost use Rattle.state.specs.Lists.{any, select, select_not};
ghost use Rattle.state.specs.Soundness.{names, keeps_slot};
ghost use Rattle.early.specs.Walk.{fits_header};
ghost use Rattle.early.specs.Parts.{part, WalkFits};

use crate::walk;
use crate::walk::Walked;
use matching::layout::Entry;
use state::layout::{Header, HeldEntry};
use state::unexpected;

#[derive(Clone, Copy)]
pub struct Found<'a> {
    pub headers: &'a [Header],
    pub walked: Walked,
    pub entry: &'a Entry,
    // The walk went over no more headers than there are, and tells whether it found one.
    ghost fits: { WalkFits entry.now headers.now walked },
}

// Some header of a part with this handle fits. What comes later in the walk is no part of a `Found` of its own: the parameters are
// plainer.
fn is_found(part: &[Header], e: &Entry, handle: u32) -> bool
    ensures { result ≡ any (names handle) (select (fits_header e.now) part.now) }
{
    part.iter()
        .any(|h| h.handle == handle && walk::fits_header(e, h))
}

// Some header of a part with this handle does not fit. One function for both would take a test that each caller has to write, which is no
// plainer.
fn is_passed(part: &[Header], e: &Entry, handle: u32) -> bool
    ensures { result ≡ any (names handle) (select_not (fits_header e.now) part.now) }
{
    part.iter()
        .any(|h| h.handle == handle && !walk::fits_header(e, h))
}

impl<'a> Found<'a> {
    ghost use Rattle.early.specs.Found.{walk_in};

    // The headers from the first that fits up to the end of the walk.
    pub fn part(&self) -> &'a [Header]
        ensures { result.now ≡ part self.now.walked self.now.headers.now }
    {
        self.walked.part(self.headers)
    }

    // A message that the walk left waits in the entry with this handle.
    fn is_left(&self, handle: u32) -> bool
        ensures { result ≡ any (names handle) (walk_in self.now).left }
    {
        unexpected::is_named(&self.headers[..self.walked.first], handle)
            || is_passed(self.part(), self.entry, handle)
            || unexpected::is_named(&self.headers[self.walked.end..], handle)
    }

    // A message that still waits, found later or left, waits in the entry with this handle. Of these lists no element of the one
    // belongs to one of the other, so that no list of pairs is plainer.
    pub fn still_waits(&self, later: &[Header], handle: u32) -> bool
        ensures { result ≡ any (names handle) (select (fits_header self.now.entry.now) later.now ++ (walk_in self.now).left) }
    {
        is_found(later, self.entry, handle) || self.is_left(handle)
    }

    // The entry keeps its slot: it is linked, or a message that is left waits in it.
    pub fn keeps_slot(&self, x: &HeldEntry) -> bool
        ensures { result ≡ keeps_slot (walk_in self.now).left x.now }
    {
        x.is_linked() || self.is_left(x.handle)
    }
}
