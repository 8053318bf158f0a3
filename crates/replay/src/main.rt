// The program `replay`: a call script on standard input, its printout on standard output.
#![tactic(auto)]

use script::{input, replay};
use std::io;

// A script of more than 32,768 bytes is bad: one more byte is read to see that, and the rest is not read.
fn main(rt: HostRuntime) -> io::Result<()> {
    let mut file = [0u8; 32769];
    let n = input::read_full(&mut rt.stdin(), &mut file);
    let report = replay::replay(rt.stdout(), &file[..n]);
    if !report.written {
        eprintln!(rt; "replay: standard output did not take the whole printout")?;
    }
    Ok(())
}
