// Document 01, "Script and printout": "Kinds and bodies". A body is read field by field, at the places that document 01 names for it: a
// conversion would need to test again what was judged. The file and a place of it are handed on, which document 01 names as the form.
ghost use Rattle.std.specs.Prelude.{◌≡◌, true, ◌+◌, ◌≤◌, length};
ghost use Rattle.reader.specs.Calls.{call_kind, kind_of_call, entry_at, request_at, change_at, call_of, line_call};
ghost use Rattle.reader.specs.Judging.{CallFits, good_body, well_formed};

use crate::contents::Line;
use crate::numbers;
use matching::layout::{Entry, Request};
use state::layout::CounterChange;

// A kind is known before a body is judged; one enum for this and a call would need a body first.
#[derive(Clone, Copy, Debug, PartialEq, Eq)]
pub enum CallKind {
    Append,
    Unlink,
    Put,
    Get,
    ReadEvent,
    ReadCounter,
    SetCounter,
    Increment,
    Search,
    ReadRegister,
}

// A call of a script with its arguments.
#[derive(Clone, Copy)]
pub enum Call {
    Append(Entry),
    Unlink(u32),
    // The payload is the part of the file from one place up to another: the definitions have
    // these places, and document 01 names it: "a part of the script slice".
    Put {
        request: Request,
        from: usize,
        end: usize,
    },
    // With the length asked for.
    Get {
        request: Request,
        length: usize,
    },
    ReadEvent,
    ReadCounter(u64),
    SetCounter(CounterChange),
    Increment(CounterChange),
    Search(Entry),
    ReadRegister(u64),
}

// A number that no kind of call has.
#[derive(Clone, Copy, Debug, PartialEq, Eq)]
pub struct UnknownKind(pub u8);

// The numbers of the kinds are 1 to 10.
impl TryFrom<u8> for CallKind {
    type Error = UnknownKind;

    ghost try_from_gives = { λ n r. r ≡ kind_of_call n };

    fn try_from(n: u8) -> Result<CallKind, UnknownKind> {
        match n {
            1 => Ok(CallKind::Append),
            2 => Ok(CallKind::Unlink),
            3 => Ok(CallKind::Put),
            4 => Ok(CallKind::Get),
            5 => Ok(CallKind::ReadEvent),
            6 => Ok(CallKind::ReadCounter),
            7 => Ok(CallKind::SetCounter),
            8 => Ok(CallKind::Increment),
            9 => Ok(CallKind::Search),
            10 => Ok(CallKind::ReadRegister),
            _ => Err(UnknownKind(n)),
        }
    }
}

// The kind that any number stands for: one that no kind has stands for the last. A script is judged by `try_from`. The library
// gives each `From` a `TryFrom`, so that both cannot stand: no `From` for this.
pub fn call_kind(n: u8) -> CallKind
    ensures { result ≡ call_kind n }
{
    CallKind::try_from(n).unwrap_or(CallKind::ReadRegister)
}

// The entry of an append or a search.
#[tactic(auto, unfolding(crate::specs::Calls::entry_at))]
fn entry_at(s: &[u8], at: usize) -> Entry
    requires { at + 56 ≤ length s.now }
    ensures { result ≡ entry_at s.now at }
{
    Entry {
        portal: s[at] as u16,
        list: s[at + 1],
        counter: s[at + 2],
        options: numbers::u32_at(s, at + 4),
        start: numbers::u32_at(s, at + 8),
        length: numbers::u32_at(s, at + 12),
        minfree: numbers::u32_at(s, at + 16),
        uid: numbers::u32_at(s, at + 20),
        nid: numbers::u32_at(s, at + 24),
        pid: numbers::u32_at(s, at + 28),
        matchbits: numbers::u64_at(s, at + 32),
        ignorebits: numbers::u64_at(s, at + 40),
        user: numbers::u64_at(s, at + 48),
    }
}

// The request of a put or a get.
#[tactic(auto, unfolding(crate::specs::Calls::request_at))]
fn request_at(s: &[u8], at: usize) -> Request
    requires { at + 48 ≤ length s.now }
    ensures { result ≡ request_at s.now at }
{
    Request {
        portal: s[at] as u16,
        ack: s[at + 1] as u16,
        nid: numbers::u32_at(s, at + 4),
        pid: numbers::u32_at(s, at + 8),
        uid: numbers::u32_at(s, at + 12),
        matchbits: numbers::u64_at(s, at + 16),
        offset: numbers::u64_at(s, at + 24),
        hdrdata: numbers::u64_at(s, at + 40),
    }
}

// What a counter is set to, or incremented by.
#[tactic(auto, unfolding(crate::specs::Calls::change_at))]
fn change_at(s: &[u8], at: usize) -> CounterChange
    requires { at + 17 ≤ length s.now }
    ensures { result ≡ change_at s.now at }
{
    CounterChange {
        counter: s[at] as u64,
        success: numbers::u64_at(s, at + 1),
        failure: numbers::u64_at(s, at + 9),
    }
}

// The call of a kind whose body a line places.
fn call_as(kind: CallKind, s: &[u8], l: Line) -> Call
    requires inside { l.place + l.length ≤ length s.now }
    requires good { good_body kind s.now l ≡ true }
    ensures call { result ≡ call_of kind s.now l }
    ensures fits { CallFits s.now result }
{
    let at = l.place as usize;
    match kind {
        CallKind::Append => Call::Append(entry_at(s, at)),
        CallKind::Unlink => Call::Unlink(numbers::u32_at(s, at)),
        CallKind::Put => Call::Put {
            request: request_at(s, at),
            from: at + 48,
            end: at + l.length as usize,
        },
        CallKind::Get => Call::Get {
            request: request_at(s, at),
            length: numbers::u32_at(s, at + 32) as usize,
        },
        CallKind::ReadEvent => Call::ReadEvent,
        CallKind::ReadCounter => Call::ReadCounter(s[at] as u64),
        CallKind::SetCounter => Call::SetCounter(change_at(s, at)),
        CallKind::Increment => Call::Increment(change_at(s, at)),
        CallKind::Search => Call::Search(entry_at(s, at)),
        CallKind::ReadRegister => Call::ReadRegister(s[at] as u64),
    }
}

// The call of a line of the contents.
#[tactic(auto, unfolding(crate::specs::Judging::well_formed))]
pub fn call_of(s: &[u8], l: Line) -> Call
    requires { well_formed s.now l ≡ true }
    ensures call { line_call s.now l ≡ Some result }
    ensures fits { CallFits s.now result }
{
    match CallKind::try_from(l.kind) {
        Ok(kind) => call_as(kind, s, l),
        Err(_) => unreachable!(),
    }
}
