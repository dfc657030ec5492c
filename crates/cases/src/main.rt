// Prints what the program `profile` prints for each input of a file of cases, which its first argument names. A case is a
// length in two bytes, least byte first, and as many bytes of input.
#![tactic(auto)]

use input::read_full;
use std::env::Env;
use std::fs::File;
use std::{io, str};

// Prints what is printed for one input.
fn print(rt: &impl Print, input: &[u8]) -> io::Result<()> {
    let mut out = [0u8; 4096];
    let n = report::report(input, &mut out);
    rt.write_all(&out[..n])
}

// Prints what is printed for each case, up to the first that is not whole.
fn print_all(rt: &impl Print, cases: &[u8]) -> io::Result<()> {
    let mut rest = cases;
    // no `for`: the rest of the bytes tells whether there is a turn
    while let Some((size, behind)) = rest.split_first_chunk::<2>() {
        let size = u16::from_le_bytes(*size);
        let Some((input, next)) = behind.split_at_checked(usize::from(size)) else {
            return Ok(());
        };
        print(rt, input)?;
        rest = next;
    }
    Ok(())
}

// Opens the file of this path, which is text.
fn open(rt: &HostRuntime, path: &[u8]) -> io::Result<File> {
    let text = str::from_utf8(path).map_err(|_| io::Error::from(io::ErrorKind::InvalidData))?;
    File::open(rt, text)
}

// With no argument the path is empty, and no file has that.
fn main(rt: HostRuntime) -> io::Result<()> {
    let mut path = [0u8; 4096];
    let length = rt.arg(1, &mut path).unwrap_or(0);
    let mut file = open(&rt, &path[..length])?;
    let mut cases = [0u8; 262144];
    let n = read_full(&mut file, &mut cases)?;
    print_all(&rt, &cases[..n])
}
