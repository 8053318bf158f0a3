// Document 01, "Script and printout": "The reader keeps the file and its own place."
ghost use Rattle.std.specs.Prelude.{◌≡◌};
ghost use Rattle.reader.specs.Contents.{line_at, next_place};

use crate::contents;
use crate::contents::Line;

// The script and the next line of its contents.
#[derive(Clone, Copy)]
pub struct Reader<'a> {
    pub script: &'a [u8],
    pub next: usize,
}

impl<'a> Reader<'a> {
    // A reader at the first line.
    pub fn open(script: &'a [u8]) -> Reader<'a>
        ensures file { result.script ≡ script.entry }
        ensures place { result.next ≡ 0 }
    {
        Reader { script, next: 0 }
    }

    // Reads the line that it is at, and goes on to the next one: from 1,024 on, where no file has a line, it stays.
    #[tactic(auto, unfolding(crate::specs::Contents::next_place))]
    pub fn read_line(&mut self) -> Option<Line>
        ensures line { result ≡ line_at self.old.script.now self.old.next }
        ensures file { self.new.script ≡ self.old.script }
        ensures place { self.new.next ≡ next_place self.old.next }
    {
        let line = contents::line_at(self.script, self.next);
        if self.next < contents::CALLS {
            self.next += 1;
        }
        line
    }
}
