// A file, as the programs read it, into a buffer of the largest size: there is no heap.
ghost use Rattle.std.specs.Prelude.{◌≤◌, length};

use std::io::Read;

// Reads until the buffer is full or the file ends, and answers how many bytes were read. A read that fails counts as the end.
// `read_exact` would not say how much it read of a shorter file, so the loop stands here. The count, and not the slice: of a slice
// its caller would not know that it is the front of the buffer.
pub fn read_full<R: Read>(from: &mut R, buf: &mut [u8]) -> usize
    ensures { result ≤ length buf.new }
{
    let mut done = 0;
    while done < buf.len() {
        match from.read(&mut buf[done..]) {
            Ok(0) | Err(_) => break,
            Ok(n) => done += n,
        }
    }
    done
}
