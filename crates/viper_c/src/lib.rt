// The calls for C, as include/viper.h declares them. Each reads the machine from regs, makes the call of the crate viper, and hands its
// outcome back; taking back puts the registers back in regs itself. None has a `requires`: what C lends is refused
// or obeyed as document 01 says. C has an export for each call, also where two differ in the call alone.
#![tactic(auto)]

mod answers;
mod registers;
mod restoring;
pub mod texts;
pub mod trails;

ghost use Rattle.std.specs.Prelude.{◌≡◌, List, ℕ, length};
ghost use Rattle.viper.specs.Operations.{step as step_op, reset as reset_op, force as force_op, set_word, outcome};
ghost use Rattle.viper.specs.Runs.{run_outcome};
ghost use Rattle.viper.specs.TakingBack.{back_outcome};
ghost use Rattle.viper.specs.Views.{view_fitted};
ghost use Rattle.surface.specs.Trails.{place_numbered};
ghost use Rattle.viper_c.specs.Surface.{lending, seen, called, run_called, one_or_zero};

use answers::hand_back;
use registers::{machine_of, write_back};
use restoring::put_back;
use surface::trails::place_of;

// One instruction.
#[unsafe(no_mangle)]
pub extern "C" fn viper_step(
    regs: &mut [u32; 6],
    main: &mut [u32],
    ports: &mut [u32],
    trail: &mut [u8],
    used: &mut usize,
) -> u32
    ensures { seen result (lending regs.new main.new ports.new trail.new used.new) ≡ called (outcome step_op) (lending regs.old main.old ports.old trail.old used.old) }
{
    let answer = viper::calls::step(machine_of(regs), main, ports, trail, *used);
    hand_back(answer, regs, used)
}

// Steps until STOP is set, the budget is used up, or a step is refused. A run that was accepted writes regs and the count in use also if it did no
// step. It answers the steps done and the ending, or 16 and the refusal's number, in the two halves.
#[unsafe(no_mangle)]
pub extern "C" fn viper_run(
    regs: &mut [u32; 6],
    main: &mut [u32],
    ports: &mut [u32],
    trail: &mut [u8],
    used: &mut usize,
    budget: u32,
) -> u64
    ensures { seen result (lending regs.new main.new ports.new trail.new used.new) ≡ run_called (run_outcome budget) (lending regs.old main.old ports.old trail.old used.old) }
{
    match viper::calls::run(machine_of(regs), main, ports, trail, *used, budget) {
        Ok(ran) => {
            write_back(ran.machine, ran.used, regs, used);
            ran.steps as u64 + ran.ending as u64 * 0x1_0000_0000
        }
        Err(refusal) => (16 + refusal as u64) * 0x1_0000_0000,
    }
}

// Clears A, X, Y, P, B and STOP.
#[unsafe(no_mangle)]
pub extern "C" fn viper_reset(regs: &mut [u32; 6], trail: &mut [u8], used: &mut usize) -> u32
    ensures { (main ports : List ℕ) → seen result (lending regs.new main ports trail.new used.new) ≡ called (outcome reset_op) (lending regs.old main ports trail.old used.old) }
{
    let answer = viper::calls::reset(machine_of(regs), trail, *used);
    hand_back(answer, regs, used)
}

// Sets STOP, also when it is set already.
#[unsafe(no_mangle)]
pub extern "C" fn viper_force(regs: &mut [u32; 6], trail: &mut [u8], used: &mut usize) -> u32
    ensures { (main ports : List ℕ) → seen result (lending regs.new main ports trail.new used.new) ≡ called (outcome force_op) (lending regs.old main ports trail.old used.old) }
{
    let answer = viper::calls::force(machine_of(regs), trail, *used);
    hand_back(answer, regs, used)
}

// Puts a value at a main address (store 0) or port number (any other store), on a halted machine too.
#[unsafe(no_mangle)]
pub extern "C" fn viper_set(
    regs: &mut [u32; 6],
    main: &mut [u32],
    ports: &mut [u32],
    trail: &mut [u8],
    used: &mut usize,
    store: u32,
    address: u32,
    value: u32,
) -> u32
    ensures { seen result (lending regs.new main.new ports.new trail.new used.new) ≡ called (outcome (set_word (place_numbered store address) value)) (lending regs.old main.old ports.old trail.old used.old) }
{
    let place = place_of(store, address);
    let answer = viper::calls::set(machine_of(regs), main, ports, trail, *used, place, value);
    hand_back(answer, regs, used)
}

// Takes back the newest operation on the trail. No trail byte is written.
#[unsafe(no_mangle)]
pub extern "C" fn viper_back(
    regs: &mut [u32; 6],
    main: &mut [u32],
    ports: &mut [u32],
    trail: &[u8],
    used: &mut usize,
) -> u32
    ensures { seen result (lending regs.new main.new ports.new trail.now used.new) ≡ called back_outcome (lending regs.old main.old ports.old trail.now used.old) }
{
    match viper::back::restore_stores(machine_of(regs), main, ports, trail, *used) {
        Ok(back) => {
            put_back(back.marked, back.values, regs);
            *used = back.left;
            0
        }
        Err(refusal) => refusal as u32,
    }
}

// Whether n words from an address are wholly fitted in main (store 0) or in the ports (any other store): 1 yes, 0 no.
#[unsafe(no_mangle)]
pub extern "C" fn viper_fitted(
    main: &[u32],
    ports: &[u32],
    store: u32,
    address: u32,
    n: usize,
) -> u8
    ensures { result ≡ one_or_zero (view_fitted (length main.now) (length ports.now) (place_numbered store address) n) }
{
    u8::from(viper::views::is_fitted(main, ports, place_of(store, address), n))
}
