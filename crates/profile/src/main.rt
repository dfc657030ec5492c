// The program `profile`: reads a query and its log from standard input to the end, and prints the answer.
#![tactic(auto)]

use input::read_full;
use std::io;

// One byte more than the program takes is read, so that a longer input is told apart.
fn main(rt: HostRuntime) -> io::Result<()> {
    let mut input = [0u8; 65537];
    let n = read_full(&mut rt.stdin(), &mut input)?;
    let mut out = [0u8; 4096];
    let k = report::report(&input[..n], &mut out);
    rt.write_all(&out[..k])
}
