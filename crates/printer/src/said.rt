// Document 01, "Script and printout": what a line of the printout says of a call: its number, and its answer. There is no heap: text
// goes into a fixed buffer, a name is bytes and no `Display`, whose promise has no bound, and a function says how much room it needs, as that
// differs: no one fact of it is plainer.
#![tactic(auto, using(text::proofs::WritingLaws::shorter, text::proofs::WritingLaws::and_then), unfolding(crate::specs::Said::said))]

ghost use Rattle.std.specs.Prelude.{◌≡◌, [], ◌++◌, ◌+◌, ◌*◌, ◌≤◌, length, take};
ghost use Rattle.text.specs.Text.{decimal_of, fields_of};
ghost use Rattle.text.specs.Writing.{Room, Wrote};
ghost use Rattle.matching.specs.Refusals.{refusal_number};
ghost use Rattle.matching.specs.Kinds.{event_kind, fail_type};
ghost use Rattle.portals.specs.Answers.{Answer, DONE, SEARCHED, EVENT, COUNTER, REGISTER, refused, answered, appended_as, taken_as, read_as, request_answer};
ghost use Rattle.printer.specs.Said.{TOLD, SAID, answer_text, said, refusal_text, kind_text, fail_text, event_source, event_message, event_text, shown_text, shown_of};

use matching::events::{EventKind, FailType};
use matching::refusals::Refusal;
use portals::answers::{Appended, RequestAnswer};
use state::layout::{Counter, Event};
use text::writing::Writer;

// An answer, of which a line says what it means in document 01's words.
pub trait Say: Sized {
    ghost means: { Self → Answer };

    // Writes the answer.
    fn tell(self, w: &mut Writer)
        requires { Room w.old TOLD }
        ensures { Wrote w.old (answer_text (means self)) TOLD w.new };

    // Writes the number of a call, and the answer. Of a line only its beginning has both the writer and the number: a struct of them
    // would be no plainer.
    fn say(self, w: &mut Writer, k: usize)
        requires { Room w.old SAID }
        ensures { Wrote w.old (said k (means self)) SAID w.new }
    {
        w.put_decimal(k as u64);
        self.tell(w);
    }
}

// A word and numbers.
fn put_word(w: &mut Writer, word: &[u8], numbers: &[u64])
    requires { Room w.old (length word.now + 21 * length numbers.now) }
    ensures { Wrote w.old (word.now ++ fields_of numbers.now) (length word.now + 21 * length numbers.now) w.new }
{
    w.put_bytes(word);
    w.put_fields(numbers);
}

// The number of a call, a word and numbers.
pub fn put_said(w: &mut Writer, k: usize, word: &[u8], numbers: &[u64])
    requires { Room w.old (20 + (length word.now + 21 * length numbers.now)) }
    ensures { Wrote w.old (decimal_of k ++ (word.now ++ fields_of numbers.now)) (20 + (length word.now + 21 * length numbers.now)) w.new }
{
    w.put_decimal(k as u64);
    put_word(w, word, numbers);
}

// "REFUSED name".
fn refusal_text(refusal: Refusal) -> &'static [u8]
    ensures text { result.now ++ fields_of [] ≡ refusal_text (refusal_number refusal) }
    ensures short { length result.now ≤ 20 }
{
    match refusal {
        Refusal::BadState => b" REFUSED BAD_STATE",
        Refusal::BadMemory => b" REFUSED BAD_MEMORY",
        Refusal::ArgInvalid => b" REFUSED ARG_INVALID",
        Refusal::NoSpace => b" REFUSED NO_SPACE",
        Refusal::InUse => b" REFUSED IN_USE",
    }
}

impl<A: Say> Say for Result<A, Refusal> {
    ghost means = { answered A.means };

    fn tell(self, w: &mut Writer) {
        match self {
            Ok(a) => a.tell(w),
            Err(refusal) => refusal.tell(w),
        }
    }
}

impl Say for Refusal {
    ghost means = { refused };

    fn tell(self, w: &mut Writer) {
        put_word(w, refusal_text(self), &[])
    }
}

impl Say for Appended {
    ghost means = { appended_as };

    fn tell(self, w: &mut Writer) {
        match self {
            Appended::Linked(handle) => put_word(w, b" LINKED", &[handle as u64]),
            Appended::Taken => put_word(w, b" TAKEN", &[]),
        }
    }
}

// Of an unlink, a counter that is set and one that is incremented.
impl Say for () {
    ghost means = { λ u. DONE };

    fn tell(self, w: &mut Writer) {
        put_word(w, b" DONE", &[])
    }
}

// Of a search: how many.
impl Say for usize {
    ghost means = { SEARCHED };

    fn tell(self, w: &mut Writer) {
        put_word(w, b" SEARCHED", &[self as u64])
    }
}

impl Say for RequestAnswer {
    ghost means = { taken_as };

    fn tell(self, w: &mut Writer) {
        match self {
            RequestAnswer::Priority {
                length,
                offset,
                ack,
            } => put_word(w, b" PRIORITY", &[length as u64, offset, ack as u64]),
            RequestAnswer::Overflow {
                length,
                offset,
                ack,
            } => put_word(w, b" OVERFLOW", &[length as u64, offset, ack as u64]),
            RequestAnswer::Dropped(ack) => put_word(w, b" DROPPED", &[ack as u64]),
            RequestAnswer::PermissionViolation(ack) => put_word(w, b" PERM", &[ack as u64]),
            RequestAnswer::OperationViolation(ack) => put_word(w, b" OP", &[ack as u64]),
        }
    }
}

impl Say for Counter {
    ghost means = { λ c. COUNTER c.success c.failure };

    fn tell(self, w: &mut Writer) {
        put_word(w, b" COUNTER", &[self.success, self.failure])
    }
}

// Of a register: its value.
impl Say for u64 {
    ghost means = { REGISTER };

    fn tell(self, w: &mut Writer) {
        put_word(w, b" REGISTER", &[self])
    }
}

// The name of a kind of event.
fn kind_text(kind: EventKind) -> &'static [u8]
    ensures text { result.now ≡ kind_text kind }
    ensures short { length result.now ≤ 13 }
{
    match kind {
        EventKind::Link => b" LINK",
        EventKind::Put => b" PUT",
        EventKind::Get => b" GET",
        EventKind::PutOverflow => b" PUT_OVERFLOW",
        EventKind::GetOverflow => b" GET_OVERFLOW",
        EventKind::Search => b" SEARCH",
        EventKind::AutoUnlink => b" AUTO_UNLINK",
        EventKind::AutoFree => b" AUTO_FREE",
    }
}

// The name of a fail type.
fn fail_text(fail: FailType) -> &'static [u8]
    ensures text { result.now ≡ fail_text fail }
    ensures short { length result.now ≤ 9 }
{
    match fail {
        FailType::Ok => b" OK",
        FailType::NoMatch => b" NO_MATCH",
    }
}

// Portal, list, identities and match bits of an event.
fn put_event_source(w: &mut Writer, e: &Event)
    requires { Room w.old 126 }
    ensures { Wrote w.old (fields_of (event_source e.now)) 126 w.new }
{
    let numbers = [
        e.portal as u64,
        e.list as u64,
        e.nid as u64,
        e.pid as u64,
        e.uid as u64,
        e.matchbits,
    ];
    w.put_fields(&numbers);
}

// Lengths, offset, place, header data, user number and gap of an event.
fn put_event_message(w: &mut Writer, e: &Event)
    requires { Room w.old 147 }
    ensures { Wrote w.old (fields_of (event_message e.now)) 147 w.new }
{
    let numbers = [
        e.requested as u64,
        e.accepted as u64,
        e.offset,
        e.place as u64,
        e.hdrdata,
        e.user,
        e.gap as u64,
    ];
    w.put_fields(&numbers);
}

// An event with its fields and gap.
fn put_event(w: &mut Writer, e: &Event)
    requires { Room w.old TOLD }
    ensures { Wrote w.old (event_text e.now) TOLD w.new }
{
    put_word(w, b" EVENT", &[]);
    w.put_bytes(kind_text(EventKind::from(e.kind)));
    w.put_bytes(fail_text(FailType::from(e.fail)));
    put_event_source(w, e);
    put_event_message(w, e);
}

// Of an event read: the event with its fields and gap.
impl Say for Option<Event> {
    ghost means = { read_as };

    fn tell(self, w: &mut Writer) {
        match self {
            Some(e) => put_event(w, &e),
            None => put_word(w, b" NONE", &[]),
        }
    }
}

// Bytes in hex behind a space, or a dash for none.
fn put_shown(w: &mut Writer, bytes: &[u8])
    requires { Room w.old (2 + 2 * length bytes.now) }
    ensures { Wrote w.old (shown_text bytes.now) (2 + 2 * length bytes.now) w.new }
{
    if bytes.is_empty() {
        w.put_bytes(b" -");
    } else {
        w.put_byte(b' ');
        w.put_hex(bytes);
    }
}

// The first n bytes of a reply, or all of one that has fewer.
fn put_first(w: &mut Writer, reply: &[u8], n: u32)
    requires { Room w.old (2 + 2 * length reply.now) }
    ensures { Wrote w.old (shown_text (take n reply.now)) (2 + 2 * length reply.now) w.new }
{
    let n = reply.len().min(n as usize);
    put_shown(w, &reply[..n]);
}

// What a get adds to its line: the bytes accepted, where it was delivered.
pub fn put_reply(w: &mut Writer, a: Result<RequestAnswer, Refusal>, reply: &[u8])
    requires { Room w.old (2 + 2 * length reply.now) }
    ensures { Wrote w.old (shown_of (request_answer a) reply.now) (2 + 2 * length reply.now) w.new }
{
    match a {
        Ok(RequestAnswer::Priority { length, .. } | RequestAnswer::Overflow { length, .. }) => {
            put_first(w, reply, length);
        }
        _ => {}
    }
}
