// Document 01, "Script and printout": a whole script, judged, run on a new target with a memory of zeros, and printed line by
// line.
ghost use Rattle.std.specs.Prelude.{◌≡◌, Ok, Err, ◌+◌, length};
ghost use Rattle.reader.specs.Judging.{verdict_of};
ghost use Rattle.script.specs.Promises.{Next, Replayed};

use crate::run;
use host::lent;
use reader::judging::BadScript;
use reader::reading::Reader;
use reader::{calls, contents, judging};
use state::layout::{Settings, Target};
use std::io::Stdout;
use text::writing::Writer;

// How far a printout is written. Both are needed at once, and no buffer holds all of it: no other form is plainer.
#[derive(Clone, Copy)]
pub struct Report {
    // How many of its bytes have come up to be handed to standard output.
    pub bytes: usize,
    // Standard output took all of them. Once it did not, nothing more is handed to it; but `bytes` counts on, as `Replayed` says.
    pub written: bool,
}

// A line has at most so many bytes.
pub const LINE: usize = 33121;

// The printout of a script, on its way to standard output.
#[derive(Drop)]
struct Printout<'a> {
    stdout: Stdout,
    script: &'a [u8],
    report: Report,
}

impl<'a> Printout<'a> {
    // Hands its next bytes to standard output. No contract says what a foreign call writes, so the `requires` says what may be
    // handed to it: what the printout has behind the bytes that were handed over before.
    fn write_next(&mut self, bytes: &[u8])
        requires { Next self.old.script.now self.old.report bytes.now }
        ensures file { self.new.script ≡ self.old.script }
        ensures bytes { self.new.report.bytes ≡ self.old.report.bytes + length bytes.now }
    {
        if self.report.written {
            self.report.written = self.stdout.write_all(bytes).is_ok();
        }
        self.report.bytes += bytes.len();
    }

    // The one line of a bad script, in bytes as all lines are and no `Display`: a `write!` could fail where this cannot fail.
    fn write_bad(&mut self, bad: BadScript)
        requires { (verdict_of self.old.script.now ≡ Err bad) × (self.old.report.bytes ≡ 0) }
        ensures { Replayed self.old.script.now self.new.report }
    {
        match bad {
            BadScript::Head => self.write_next(b"BAD_SCRIPT HEAD\n"),
            BadScript::Call(call) => {
                let mut out = [0u8; 32];
                let mut w = Writer::new(&mut out);
                w.put_bytes(b"BAD_SCRIPT");
                w.put_fields(&[call as u64]);
                w.put_byte(b'\n');
                self.write_next(w.written())
            }
        }
    }
}

// Runs a good script on the leading part of 16,384 zero bytes: no target of such a size is refused. The line of a call goes out
// before the next call.
fn run_lines(printout: &mut Printout)
    requires { (verdict_of printout.old.script.now ≡ Ok tt) × (printout.old.report.bytes ≡ 0) }
    ensures { Replayed printout.old.script.now printout.new.report }
{
    let script = printout.script;
    let head = contents::head_of(script);
    let mut t = Target::empty(0);
    let _ = lent::new(&mut t, Settings { size: head.memory });
    let mut zeros = run::zero_bytes();
    let memory = &mut zeros[..head.memory as usize];
    let mut reader = Reader::open(script);
    let mut out = [0u8; LINE];
    for k in 0..head.count as usize {
        let Some(line) = reader.read_line() else {
            unreachable!()
        };
        let call = calls::call_of(script, line);
        let mut w = Writer::new(&mut out);
        run::run_line(&mut t, memory, script, call, k, &mut w);
        printout.write_next(w.written());
    }
}

// Judges a script and writes its printout: of a good one, what each call answers when all are run on a new target.
pub fn replay(stdout: Stdout, script: &[u8]) -> Report
    ensures { Replayed script.now result }
{
    let mut printout = Printout {
        stdout,
        script,
        report: Report {
            bytes: 0,
            written: true,
        },
    };
    match judging::judge(script) {
        Ok(()) => run_lines(&mut printout),
        Err(bad) => printout.write_bad(bad),
    }
    printout.report
}
