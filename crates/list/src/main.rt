// list, the listing program (document 02, W1): it reads a routine from standard input as bench does, and prints its words' listing.
#![tactic(auto)]

use counter::{BadLine, bad_line};
use std::io;

// The text is read up to one byte more than 8,192 lines have: these bytes decide which line is the first bad one.
fn main(rt: HostRuntime) -> io::Result<()> {
    let mut text = [0u8; 73729];
    let read = console::read_full(&mut rt.stdin(), &mut text)?;
    let mut main = [0u32; 8192];
    match counter::load(&text[..read], &mut main) {
        Ok(n) => print_listing(&rt, &main[..n]),
        Err(BadLine(n)) => rt.write_all(bad_line(n).as_bytes()),
    }
}

// A line has at most 24 bytes.
fn print_listing(rt: &impl Print, words: &[u32]) -> io::Result<()> {
    let mut out = [0u8; 196608];
    match listing::list(words, &mut out) {
        Ok(n) => rt.write_all(&out[..n]),
        Err(_) => Ok(()),
    }
}
