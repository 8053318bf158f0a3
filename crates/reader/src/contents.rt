// Document 01, "Script and printout": head and contents of a script. They are read field by field, at the
// places that document 01 names: a conversion would need to test again how long the file is.
ghost use Rattle.std.specs.Prelude.{◌≡◌, ◌≤◌, length};
ghost use Rattle.reader.specs.Contents.{HEAD, CALLS, head_of, line_at, body_lengths};

use crate::numbers;

#[derive(Clone, Copy)]
pub struct Head {
    // How many calls.
    pub count: u16,
    // "zero u16".
    pub reserved: u16,
    // The size of the memory.
    pub memory: u32,
}

// A line of the contents, one call, as the file has it: it is read before it is judged, and to keep its kind as an enum or its body as
// a slice would need that judgement.
#[derive(Clone, Copy)]
pub struct Line {
    pub kind: u8,
    // "zero u8".
    pub reserved: u8,
    // The body's length in bytes.
    pub length: u16,
    // Where the body begins in the file.
    pub place: u32,
}

pub const HEAD: usize = 8;

// A script has at most so many calls.
pub const CALLS: usize = 1024;

#[tactic(auto, unfolding(crate::specs::Contents::head_of))]
pub fn head_of(s: &[u8]) -> Head
    requires { HEAD ≤ length s.now }
    ensures { result ≡ head_of s.now }
{
    Head {
        count: numbers::u16_at(s, 0),
        reserved: numbers::u16_at(s, 2),
        memory: numbers::u32_at(s, 4),
    }
}

// Line i of the contents: none beyond the last that a file can have, and beyond its end. It takes a slice and a number, as document 01
// names the covered functions: a `TryFrom` has no place for the number.
#[tactic(auto, unfolding(crate::specs::Contents::line_at))]
pub(crate) fn line_at(s: &[u8], i: usize) -> Option<Line>
    ensures { result ≡ line_at s.now i }
{
    if CALLS <= i {
        return None;
    }
    let at = HEAD + 8 * i;
    if s.len() < at + 8 {
        return None;
    }
    Some(Line {
        kind: s[at],
        reserved: s[at + 1],
        length: numbers::u16_at(s, at + 2),
        place: numbers::u32_at(s, at + 4),
    })
}

// All body lengths that the first lines of the contents say.
#[tactic(auto, using(crate::proofs::ContentsLaws::lengths_more, crate::proofs::ContentsLaws::lengths_none))]
pub(crate) fn body_lengths(s: &[u8], count: usize) -> usize
    requires { count ≤ CALLS }
    ensures { result ≡ body_lengths s.now count 0 }
{
    let mut sum = 0;
    for i in 0..count {
        if let Some(l) = line_at(s, i) {
            sum += l.length as usize;
        }
    }
    sum
}
