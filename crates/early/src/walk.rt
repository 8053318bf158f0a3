// The walk over the unexpected headers, oldest first. It is the same for an append and for both modes of a search. Whether a call walks
// is an argument, as it is of the definition.
ghost use Rattle.std.specs.Prelude.{◌≡◌, List, length};
ghost use Rattle.early.specs.Walk.{arrival_in, fits_header, uses_once, walk_for, walk_if, found_once};
ghost use Rattle.early.specs.Parts.{part, finds, walk_of, WalkInside, WalkFits, WalkHolds};
ghost use Rattle.state.specs.declared.layout.Header.{Header};

use matching::layout::Entry;
use matching::request::Arrival;
use matching::{early_messages, entry};
use state::layout::Header;

// How far a walk went: of the headers from the first that fits up to `end` those that fit are found, and all others are left, where
// they wait. Where none is found, both are the number of the headers.
#[derive(Clone, Copy)]
pub struct Walked {
    pub first: usize,
    pub end: usize,
}

// The message of a header as it arrived. Neither type is of this crate, so no
// `From` may stand here.
fn arrival_in(h: &Header) -> Arrival
    ensures { result ≡ arrival_in h.now }
{
    Arrival {
        kind: h.kind.into(),
        requested: h.requested,
        nid: h.nid,
        pid: h.pid,
        uid: h.uid,
        matchbits: h.matchbits,
        offset: h.offset,
        hdrdata: h.hdrdata,
    }
}

// A header of the entry's own portal fits it.
pub fn fits_header(e: &Entry, h: &Header) -> bool
    ensures { result ≡ fits_header e.now h.now }
{
    (h.portal == e.portal) && early_messages::is_fit(e, &arrival_in(h))
}

// The walk ends at the first that fits.
pub(crate) fn uses_once(e: &Entry) -> bool
    ensures { result ≡ uses_once e.now }
{
    entry::is_set(e.options, entry::USE_ONCE)
}

// The walk: all that fit are found, or under USE_ONCE the first of them; the others are left.
pub fn walk_for(headers: &[Header], e: &Entry) -> Walked
    ensures { WalkHolds e.now headers.now result (walk_for e.now headers.now) }
{
    let all = headers.len();
    match headers.iter().position(|h| fits_header(e, h)) {
        Some(first) if uses_once(e) => Walked {
            first,
            end: first + 1,
        },
        Some(first) => Walked { first, end: all },
        None => Walked {
            first: all,
            end: all,
        },
    }
}

// The walk of a call that walks; one that does not finds none and leaves all.
pub fn walk_if(headers: &[Header], walks: bool, e: &Entry) -> Walked
    ensures { WalkHolds e.now headers.now result (walk_if walks e.now headers.now) }
{
    if walks {
        walk_for(headers, e)
    } else {
        let n = headers.len();
        Walked { first: n, end: n }
    }
}

impl Walked {
    // Some header is found.
    pub fn finds(&self) -> bool
        ensures { result ≡ finds self.now }
    {
        self.first < self.end
    }

    // The headers from the first that fits up to the end of the walk.
    pub fn part<'a>(&self, headers: &'a [Header]) -> &'a [Header]
        requires { WalkInside headers.now self.now }
        ensures { result.now ≡ part self.now headers.now }
    {
        &headers[self.first..self.end]
    }
}

// How many are found.
pub fn found_count(headers: &[Header], w: &Walked, e: &Entry) -> usize
    requires { WalkInside headers.now w.now }
    ensures { result ≡ length (walk_of e.now headers.now w.now).found }
{
    w.part(headers).iter().filter(|h| fits_header(e, h)).count()
}

// With USE_ONCE there is a fit.
pub fn found_once(w: &Walked, e: &Entry) -> bool
    ensures { (headers : List Header) → WalkFits e.now headers w.now → (result ≡ found_once e.now (walk_of e.now headers w.now)) }
{
    uses_once(e) && w.finds()
}
