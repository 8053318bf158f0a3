// Prints an answer behind `lent` or `value`: as in a printout, and those of new, ready and poll, which no script has, as MADE, READY,
// NOT_READY, REACHED and NONE_REACHED. A word is bytes, as `put_said` takes it, and no `Display`. Each line
// has another `way`, so that a struct of it and the others would be made for each and used once: it would be no plainer.
ghost use Rattle.std.specs.Prelude.{◌+◌, ◌*◌, ◌≤◌, length};

use matching::refusals::Refusal;
use printer::said;
use printer::said::Say;
use std::io;
use std::io::Stdout;
use text::writing::Writer;

// How the call was made, and its line.
fn print_line(stdout: Stdout, way: &[u8], line: &[u8]) -> io::Result<()> {
    stdout.write_all(way)?;
    stdout.write_all(line)?;
    stdout.write_all(b"\n")
}

// An answer that a printout has.
pub fn say_answer<A: Say>(stdout: Stdout, way: &[u8], k: usize, answer: A) -> io::Result<()> {
    let mut out = [0u8; 400];
    let mut w = Writer::new(&mut out);
    answer.say(&mut w, k);
    print_line(stdout, way, w.written())
}

// A word, and numbers behind it.
fn say_word(stdout: Stdout, way: &[u8], k: usize, word: &[u8], numbers: &[u64]) -> io::Result<()>
    requires { 20 + length word.now + 21 * length numbers.now ≤ 400 }
{
    let mut out = [0u8; 400];
    let mut w = Writer::new(&mut out);
    said::put_said(&mut w, k, word, numbers);
    print_line(stdout, way, w.written())
}

pub fn say_new(stdout: Stdout, way: &[u8], k: usize, a: Result<(), Refusal>) -> io::Result<()> {
    match a {
        Ok(()) => say_word(stdout, way, k, b" MADE", &[]),
        Err(refusal) => say_answer(stdout, way, k, refusal),
    }
}

pub fn say_ready(stdout: Stdout, way: &[u8], k: usize, a: Result<bool, Refusal>) -> io::Result<()> {
    match a {
        Ok(true) => say_word(stdout, way, k, b" READY", &[]),
        Ok(false) => say_word(stdout, way, k, b" NOT_READY", &[]),
        Err(refusal) => say_answer(stdout, way, k, refusal),
    }
}

pub fn say_poll(
    stdout: Stdout,
    way: &[u8],
    k: usize,
    a: Result<Option<usize>, Refusal>,
) -> io::Result<()> {
    match a {
        Ok(Some(place)) => say_word(stdout, way, k, b" REACHED", &[place as u64]),
        Ok(None) => say_word(stdout, way, k, b" NONE_REACHED", &[]),
        Err(refusal) => say_answer(stdout, way, k, refusal),
    }
}
