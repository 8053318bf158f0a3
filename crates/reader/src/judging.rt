// Document 01, "Script and printout": which files are bad, and where. A file is judged whole, before anything runs.
// Kinds have tests of their own, which a match is plainer for than a table of closures.
ghost use Rattle.std.specs.Prelude.{◌≡◌, ◌+◌, ◌≤◌, cond, length};
ghost use Rattle.reader.specs.Contents.{CALLS, body_length, head_of, line_at};
ghost use Rattle.reader.specs.Judging.{FILE, bodies_start, good_fields, good_head, request_zeros, good_entry, good_put, good_get, good_body, well_formed, good_line, good_call, first_bad_call, verdict_of};

use crate::calls::CallKind;
use crate::contents::{Head, Line};
use crate::{contents, numbers};

// What is bad of a file.
#[derive(Clone, Copy, Debug, PartialEq, Eq)]
pub enum BadScript {
    Head,
    // The first bad call, from 0.
    Call(usize),
}

// The longest file, in bytes.
pub const FILE: usize = 32768;

// The largest memory of a script, and the longest get.
pub const SCRIPT_MEMORY: u32 = 16384;

fn good_fields(h: Head) -> bool
    ensures { result ≡ good_fields h }
{
    h.count as usize <= contents::CALLS && h.reserved == 0 && h.memory <= SCRIPT_MEMORY
}

#[tactic(auto, unfolding(crate::specs::Judging::good_head))]
fn good_head(s: &[u8]) -> bool
    ensures { result ≡ good_head s.now }
{
    if s.len() < contents::HEAD {
        return false;
    }
    let h = contents::head_of(s);
    let count = h.count as usize;
    let bodies = contents::HEAD + 8 * count;
    let n = s.len();
    good_fields(h) && n <= FILE && bodies <= n && n - bodies <= contents::body_lengths(s, count)
}

// The zeros of a put's or get's body.
fn request_zeros(s: &[u8], at: usize) -> bool
    requires { at + 48 ≤ length s.now }
    ensures { result ≡ request_zeros s.now at }
{
    numbers::u16_at(s, at + 2) == 0 && numbers::u32_at(s, at + 36) == 0
}

fn good_entry(s: &[u8], l: Line) -> bool
    requires { l.place + l.length ≤ length s.now }
    ensures { result ≡ good_entry s.now l }
{
    l.length == 56 && s[l.place as usize + 3] == 0
}

fn good_put(s: &[u8], l: Line) -> bool
    requires { l.place + l.length ≤ length s.now }
    ensures { result ≡ good_put s.now l }
{
    let at = l.place as usize;
    48 <= l.length
        && request_zeros(s, at)
        && l.length as u64 == 48 + numbers::u32_at(s, at + 32) as u64
}

#[tactic(auto, unfolding(crate::specs::Calls::request_at))]
fn good_get(s: &[u8], l: Line) -> bool
    requires { l.place + l.length ≤ length s.now }
    ensures { result ≡ good_get s.now l }
{
    let at = l.place as usize;
    l.length == 48
        && request_zeros(s, at)
        && s[at + 1] == 0
        && numbers::u64_at(s, at + 40) == 0
        && numbers::u32_at(s, at + 32) <= SCRIPT_MEMORY
}

fn good_body(kind: CallKind, s: &[u8], l: Line) -> bool
    requires { l.place + l.length ≤ length s.now }
    ensures { result ≡ good_body kind s.now l }
{
    match kind {
        CallKind::Append | CallKind::Search => good_entry(s, l),
        CallKind::Unlink => l.length == 4,
        CallKind::Put => good_put(s, l),
        CallKind::Get => good_get(s, l),
        CallKind::ReadEvent => l.length == 0,
        CallKind::ReadCounter | CallKind::ReadRegister => l.length == 1,
        CallKind::SetCounter | CallKind::Increment => l.length == 17,
    }
}

// A line that is good wherever its body should be.
#[tactic(auto, unfolding(crate::specs::Judging::well_formed))]
fn well_formed(s: &[u8], l: Line) -> bool
    ensures { result ≡ well_formed s.now l }
{
    let Ok(kind) = CallKind::try_from(l.kind) else {
        return false;
    };
    let end = l.place as usize + l.length as usize;
    l.reserved == 0 && end <= s.len() && good_body(kind, s, l)
}

// The same, where its body is to begin at a place.
fn good_line(s: &[u8], at: usize, l: Line) -> bool
    ensures { result ≡ good_line s.now at l }
{
    well_formed(s, l) && l.place as usize == at
}

// The head of a file, if that is good.
#[tactic(auto, using(crate::proofs::JudgingLaws::head_good))]
fn check_head(s: &[u8]) -> Result<Head, BadScript>
    ensures { result ≡ cond (good_head s.now) (Ok (head_of s.now)) (Err BadScript.Head) }
{
    if good_head(s) {
        Ok(contents::head_of(s))
    } else {
        Err(BadScript::Head)
    }
}

// Where the body of call i ends, if the call is good and its body begins at a place.
fn check_call(s: &[u8], i: usize, at: usize) -> Result<usize, BadScript>
    requires { at ≤ FILE }
    ensures { result ≡ cond (good_call s.now at (line_at s.now i)) (Ok (at + body_length (line_at s.now i))) (Err (BadScript.Call i)) }
{
    let l = contents::line_at(s, i).ok_or(BadScript::Call(i))?;
    if good_line(s, at, l) {
        Ok(at + l.length as usize)
    } else {
        Err(BadScript::Call(i))
    }
}

// The calls, whose bodies follow the contents.
#[tactic(auto, using(crate::proofs::JudgingLaws::calls_more, crate::proofs::JudgingLaws::calls_none, crate::proofs::JudgingLaws::call_ends))]
fn check_calls(s: &[u8], count: usize) -> Result<(), BadScript>
    requires { (count ≤ CALLS) × ((bodies_start count ≤ length s.now) × (length s.now ≤ FILE)) }
    ensures { result ≡ first_bad_call s.now count 0 (bodies_start count) }
{
    let mut at = contents::HEAD + 8 * count;
    for i in 0..count {
        at = check_call(s, i, at)?;
    }
    Ok(())
}

// Judges a file.
#[tactic(auto, using(crate::proofs::JudgingLaws::head_good), unfolding(crate::specs::Judging::verdict_of))]
pub fn judge(s: &[u8]) -> Result<(), BadScript>
    ensures { result ≡ verdict_of s.now }
{
    let head = check_head(s)?;
    check_calls(s, head.count as usize)
}
