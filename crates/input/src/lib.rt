// What the programs read: bytes into a buffer of their own, so that reading takes no memory besides.
#![tactic(auto)]

ghost use Rattle.std.specs.Prelude.{◌<◌, ◌≤◌, IfOk, length, take};
ghost use Rattle.std.specs.Io.KnownBytes.{Consumes, IsAtEnd};

use std::io;
use std::io::Read;

// Reads until the buffer is full or there is no more to read, and gives the number of bytes read. By a loop: `read_exact` does not tell
// how much there was, and `read_to_end` takes memory.
pub fn read_full<R: Read>(source: &mut R, buffer: &mut [u8]) -> io::Result<usize>
    ensures within { IfOk result (λ n. n ≤ length buffer.new) }
    ensures bytes { IfOk result (λ n. Consumes (R.remaining source.old) (R.remaining source.new) (take n buffer.new)) }
    ensures end { IfOk result (λ n. n < length buffer.new → IsAtEnd (R.remaining source.new)) }
{
    let mut n = 0;
    while n < buffer.len() {
        let more = source.read(&mut buffer[n..])?;
        if more == 0 {
            return Ok(n);
        }
        n += more;
    }
    Ok(n)
}
