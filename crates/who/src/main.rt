// who, which operation hit this word (document 02, W7): it reads a place and a routine from standard input, runs the routine as bench does, and tells
// which operation was the newest to change the word there.
#![tactic(auto)]

use asking::{asked_place, hit_line};
use counter::{BadLine, bad_line};
use listing::line_of_word;
use machine::{Machine, Place};
use seeking::{Hit, find};
use std::io;
use viper::After;
use viper::calls::{run, take_back};

// The most steps of a run.
const BUDGET: u32 = 300;

// The bytes of the line with the place.
const PLACE_LINE: usize = 11;

// The text is read up to one byte more than that line and 8,192 others have: these bytes decide which line is the first bad one.
fn main(rt: HostRuntime) -> io::Result<()> {
    let mut text = [0u8; 73740];
    let read = console::read_full(&mut rt.stdin(), &mut text)?;
    match asked_place(&text[..read]) {
        Some(place) => load_and_tell(&rt, place, &text[..read]),
        None => rt.write_all(bad_line(1).as_bytes()),
    }
}

// The lines after the first are a routine as bench reads it.
fn load_and_tell(rt: &impl Print, place: Place, text: &[u8]) -> io::Result<()> {
    let Some(routine) = text.get(PLACE_LINE..) else {
        return Ok(());
    };
    let mut main = [0u32; 8192];
    match counter::load(routine, &mut main) {
        Ok(_) => {
            let mut ports = [0u32; 256];
            let mut trail = [0u8; 4096];
            run_and_tell(rt, place, &mut main, &mut ports, &mut trail)
        }
        Err(BadLine(n)) => rt.write_all(bad_line(n + 1).as_bytes()),
    }
}

// From the cleared machine no such run is refused, and its trail is not broken.
fn run_and_tell(
    rt: &impl Print,
    place: Place,
    main: &mut [u32],
    ports: &mut [u32],
    trail: &mut [u8],
) -> io::Result<()> {
    let Ok(ran) = run(Machine::default(), main, ports, trail, 0, BUDGET) else {
        return Ok(());
    };
    match find(main.len(), ports.len(), trail, ran.used, place) {
        Ok(Some(hit)) => {
            // A record that holds the place was found, so it is fitted.
            let new = viper::views::view(main, ports, place, 1)
                .first()
                .copied()
                .unwrap_or(0);
            let after = After {
                machine: ran.machine,
                used: ran.used,
            };
            take_back_some(after, main, ports, trail, hit.back);
            print_hit(rt, hit, new, main)
        }
        Ok(None) => rt.write_all(b"never\n"),
        Err(_) => Ok(()),
    }
}

// Takes so many operations back: then main is what it was when the oldest of them was done.
fn take_back_some(after: After, main: &mut [u32], ports: &mut [u32], trail: &[u8], count: usize) {
    let mut left = after;
    for _ in 0..count {
        match take_back(left.machine, main, ports, trail, left.used) {
            Ok(before) => left = before,
            Err(_) => return,
        }
    }
}

// How many operations back, P, the word's value before and now; then the listing's line of the instruction.
fn print_hit(rt: &impl Print, hit: Hit, new: u32, main: &[u32]) -> io::Result<()> {
    let p = hit.values.p;
    rt.write_all(hit_line(hit.back, p, hit.values.value, new).as_bytes())?;
    match main.get(p as usize) {
        Some(w) => rt.write_all(line_of_word(p as usize, *w).as_bytes()),
        None => Ok(()),
    }
}
