// The program `vectors`: runs the script files that its arguments name, one after the other, each on a new target. Before the
// printout of each stands a line with its name.
#![tactic(auto)]

use script::replay::Report;
use script::{input, replay};
use std::fs::File;
use std::{env, io};

// Answers how far the printout was written.
fn replay_file(rt: &HostRuntime, path: &str) -> io::Result<Report> {
    let mut from = File::open(rt, path)?;
    let mut file = [0u8; 32769];
    let n = input::read_full(&mut from, &mut file);
    println!(rt; "== {path}")?;
    Ok(replay::replay(rt.stdout(), &file[..n]))
}

// What fails is said on standard error, and the next file's turn comes.
fn replay_argument(rt: &HostRuntime, path: &str) -> io::Result<()> {
    match replay_file(rt, path) {
        Ok(Report { written: true, .. }) => return Ok(()),
        Ok(_) => {}
        Err(e) => eprintln!(rt; "{path}: {e}")?,
    }
    eprintln!(rt; "vectors: not replayed, or its printout not written")
}

fn main(rt: HostRuntime) -> io::Result<()> {
    for path in env::args(&rt)?.skip(1) {
        replay_argument(&rt, path.as_str())?;
    }
    Ok(())
}
