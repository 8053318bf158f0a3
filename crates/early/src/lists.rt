// What `handling` does, of any headers found and left, in lists of their own: the definitions speak of these two, and of each part of the
// state by itself. What a function needs of a part it requires, as in hand_out.rt. No call comes here: a walk makes no lists.
ghost use Rattle.std.specs.Prelude.{◌≡◌, ◌≤◌, List, length, map, IfSome, MatchOption};
ghost use Rattle.state.specs.Sizes.{HEADERS};
ghost use Rattle.state.specs.View.{entries_of, headers_of, queue_of};
ghost use Rattle.state.specs.Events.{search_event, post_all};
ghost use Rattle.state.specs.Parts.{EntriesFit, EntriesHold, UnexpectedFit, UnexpectedHold, QueueFits, QueueHolds, TargetFits};
ghost use Rattle.early.specs.Handling.{closing_events, entries_after, headers_after, events_issued, counters_after};
ghost use Rattle.early.specs.Parts.{RoomFor, TargetAfterLists};
ghost use Rattle.state.specs.declared.layout.Header.{Header};

use crate::handling::Handling;
use crate::{hand_out, handling, walk};
use matching::layout::Entry;
use state::events;
use state::layout::{Counters, Entries, Header, HeldEntry, Queue, Target, Unexpected};

// SEARCH for each header, oldest first.
fn queue_searched(q: &mut Queue, found: &[Header], e: &Entry)
    requires { QueueFits q.old }
    ensures { QueueHolds q.new (post_all (queue_of q.old) (map (search_event e.now) found.now)) }
{
    for h in found {
        q.post(events::search_event(e, h), e.options);
    }
}

// A search is closed by SEARCH with NO_MATCH, unless it ended at the first fit.
fn queue_closed(q: &mut Queue, found: &[Header], e: &Entry)
    requires { QueueFits q.old }
    ensures { (left : List Header) → QueueHolds q.new (post_all (queue_of q.old) (closing_events e.now (record { found = found.now; left = left }))) }
{
    if !(walk::uses_once(e) && !found.is_empty()) {
        q.post(events::no_match_event(e), e.options);
    }
}

// The events of the call.
fn queue_events(
    q: &mut Queue,
    how: Handling,
    found: &[Header],
    left: &[Header],
    e: &Entry,
    entries: &[HeldEntry],
)
    requires { QueueFits q.old }
    ensures { QueueHolds q.new (post_all (queue_of q.old) (events_issued entries.now e.now (record { found = found.now; left = left.now }) how)) }
{
    match how {
        Handling::Look => {
            queue_searched(q, found, e);
            queue_closed(q, found, e);
        }
        Handling::Delete => {
            hand_out::queue_handed_out_lists(q, found, left, e, 0, entries);
            queue_closed(q, found, e);
        }
        Handling::Take => hand_out::queue_handed_out_lists(q, found, left, e, 0, entries),
        Handling::Link(handle) => {
            hand_out::queue_handed_out_lists(q, found, left, e, handle, entries);
            q.post(events::link_event(e, handle), e.options);
        }
    }
}

// The entries afterwards.
fn change_entries(es: &mut Entries, how: Handling, left: &[Header], e: &Entry)
    requires entries_fit { EntriesFit es.old }
    requires room_for { RoomFor how es.old }
    ensures { (found : List Header) → EntriesHold es.new (entries_after (entries_of es.old) e.now (record { found = found; left = left.now }) how) }
{
    match how {
        Handling::Look => {}
        Handling::Delete | Handling::Take => hand_out::keep_entries_lists(es, left),
        Handling::Link(handle) => {
            hand_out::keep_entries_lists(es, left);
            es.add(handling::new_entry(e, handle));
        }
    }
}

// The unexpected headers afterwards.
fn change_headers(us: &mut Unexpected, how: Handling, left: &[Header])
    requires unexpected_fit { UnexpectedFit us.old }
    requires left_few { length left.now ≤ HEADERS }
    ensures { (found : List Header) → UnexpectedHold us.new (headers_after (headers_of us.old) (record { found = found; left = left.now }) how) }
{
    match how {
        Handling::Look => {}
        Handling::Delete | Handling::Take | Handling::Link(_) => {
            us.slots[..left.len()].copy_from_slice(left);
            us.count = left.len();
        }
    }
}

// The counters afterwards.
fn change_counters(cs: &mut Counters, how: Handling, found: &[Header], e: &Entry)
    requires { length found.now ≤ HEADERS }
    ensures { (left : List Header) → cs.new.slots ≡ counters_after cs.old.slots e.now (record { found = found.now; left = left }) how }
{
    match how {
        Handling::Look | Handling::Delete => {}
        Handling::Take | Handling::Link(_) => {
            let amount = hand_out::overflow_amounts_of(found, e.options);
            cs.count(e.counter, amount);
        }
    }
}

// All parts afterwards.
fn change_parts(t: &mut Target, how: Handling, found: &[Header], left: &[Header], e: &Entry)
    requires target_fits { TargetFits t.old }
    requires room_for { RoomFor how t.old.entries }
    requires found_few { length found.now ≤ HEADERS }
    requires left_few { length left.now ≤ HEADERS }
    ensures { TargetAfterLists t.old e.now (record { found = found.now; left = left.now }) how t.new }
{
    queue_events(&mut t.queue, how, found, left, e, t.entries.in_use());
    change_entries(&mut t.entries, how, left, e);
    change_counters(&mut t.counters, how, found, e);
    change_headers(&mut t.unexpected, how, left);
    t.last = handling::last_after(t.last, how);
}

// What `handle` does, and of a call that may have been refused: then it does nothing.
pub fn handle_lists(
    t: &mut Target,
    how: Option<Handling>,
    found: &[Header],
    left: &[Header],
    e: &Entry,
)
    requires target_fits { IfSome how (λ how. TargetFits t.old) }
    requires room_for { IfSome how (λ how. RoomFor how t.old.entries) }
    requires found_few { IfSome how (λ how. length found.now ≤ HEADERS) }
    requires left_few { IfSome how (λ how. length left.now ≤ HEADERS) }
    ensures { MatchOption how (t.new ≡ t.old)
        (λ how. TargetAfterLists t.old e.now (record { found = found.now; left = left.now }) how t.new) }
{
    if let Some(how) = how {
        change_parts(t, how, found, left, e);
    }
}
