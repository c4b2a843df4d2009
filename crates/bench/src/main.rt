// bench, the counter program (document 01, "The counter program"): it runs a routine from standard input, tells what came of it,
// takes every step back, and tells that too.
#![tactic(auto)]

use counter::{BadLine, back_line, bad_line, run_line};
use machine::Machine;
use std::io;
use viper::After;
use viper::calls::{run, take_back};

// The most steps of a run.
const BUDGET: u32 = 300;

// The text is read up to one byte more than 8,192 lines have: these bytes decide which line is the first bad one.
fn main(rt: HostRuntime) -> io::Result<()> {
    let mut text = [0u8; 73729];
    let read = console::read_full(&mut rt.stdin(), &mut text)?;
    let mut main = [0u32; 8192];
    match counter::load(&text[..read], &mut main) {
        Ok(_) => {
            let mut ports = [0u32; 256];
            let mut trail = [0u8; 4096];
            run_and_take_back(&rt, &mut main, &mut ports, &mut trail)
        }
        Err(BadLine(n)) => rt.write_all(bad_line(n).as_bytes()),
    }
}

// Runs the routine in main, prints, takes back, and prints again. From the cleared machine no such run is refused.
fn run_and_take_back(
    rt: &impl Print,
    main: &mut [u32],
    ports: &mut [u32],
    trail: &mut [u8],
) -> io::Result<()> {
    let Ok(ran) = run(Machine::default(), main, ports, trail, 0, BUDGET) else {
        return Ok(());
    };
    let after = After {
        machine: ran.machine,
        used: ran.used,
    };
    rt.write_all(run_line(ran.steps, ran.ending, after.machine, after.used).as_bytes())?;
    let (before, count) = take_back_all(after, main, ports, trail);
    rt.write_all(back_line(count, before.machine, before.used).as_bytes())
}

// Takes back until it is refused, and answers what is left then and how many records were taken back. A record has four bytes or more, so the turns
// are fewer than the bytes that were in use. (who takes back as many as it is told and tells no count; one function for both would want a crate of its
// own above viper, and is no plainer than either loop.)
fn take_back_all(
    after: After,
    main: &mut [u32],
    ports: &mut [u32],
    trail: &[u8],
) -> (After, usize) {
    let mut left = after;
    for count in 0..after.used {
        match take_back(left.machine, main, ports, trail, left.used) {
            Ok(before) => left = before,
            Err(_) => return (left, count),
        }
    }
    (left, after.used)
}
