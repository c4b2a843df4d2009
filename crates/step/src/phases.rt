// The phases of a step: fetch, decode, operand and execute work out what it changes, and finish (finish.rt) writes it.
// Document 01, "Order in a step". What a step changes is not collected in one value, which would go through memory: each way through
// the phases ends in the finish that it needs.
//
// The machine is in pieces here: P and B, and the four sources A, X, Y and N, so that a register is found by its number. STOP is not set.
// That the sources are four stands in the contracts: the length of a lent array is not known otherwise.
ghost use Rattle.std.specs.Prelude.{◌≡◌, false, cond, ◌≤◌, ◌<◌, ◌^◌, eqb, length, get_or};
ghost use Rattle.report.specs.Parts.{InRange};
ghost use Rattle.machine.specs.Held.{ram, state, place_by};
ghost use Rattle.instruction.specs.Sources.{address_of};
ghost use Rattle.step.specs.Lawful.{Lawful};
ghost use Rattle.step.specs.Phases.{held, word_in, Decodes, constant_or, operand_of};
ghost use Rattle.step.specs.Finishing.{came, Kept, ended, once};

use crate::finish::{Next, Undone, finish_flags, finish_register, finish_word, is_fitted};
use instruction::{ClassTable, Fields};
use machine::{MainAddress, Place, PortNumber};

// Why there is no M: a bad address halts, and a word that is not fitted refuses the step. Whoever asks for M ends the step in these ways himself.
#[derive(Clone, Copy, Debug, PartialEq, Eq)]
pub enum NoOperand {
    Bad,
    Unfitted,
}

// The word of a store at a number, where it has one.
pub(crate) fn word_in(store: &[u32], at: u32) -> Option<u32>
    ensures { result ≡ word_in store.now at }
{
    store.get(at as usize).copied()
}

// M: the constant addr where msf is 0, else a word, of the ports or of main. Which of them is asked last: a constant has no store.
fn constant_or_read(
    f: Fields,
    port: bool,
    sources: &[u32; 4],
    main: &[u32],
    ports: &[u32],
) -> Result<u32, NoOperand>
    requires { (get_or sources.now 1 0 < 2 ^ 32) × (get_or sources.now 2 0 < 2 ^ 32) }
    ensures { result ≡ constant_or f (address_of f.msf f.addr sources.now) (cond port ports.now main.now) }
{
    if f.msf == 0 {
        return Ok(f.addr);
    }
    let at = f.address(sources);
    if at > 0xF_FFFF {
        return Err(NoOperand::Bad);
    }
    // By a match: `ok_or` cost a read twelve instructions.
    if port {
        return match word_in(ports, at) {
            Some(v) => Ok(v),
            None => Err(NoOperand::Unfitted),
        };
    }
    match word_in(main, at) {
        Some(v) => Ok(v),
        None => Err(NoOperand::Unfitted),
    }
}

// M of a function for A, X or Y: a shift has none, and function 2 reads a port.
fn operand_of(f: Fields, sources: &[u32; 4], main: &[u32], ports: &[u32]) -> Result<u32, NoOperand>
    requires { (get_or sources.now 1 0 < 2 ^ 32) × (get_or sources.now 2 0 < 2 ^ 32) }
    ensures { result ≡ operand_of f (address_of f.msf f.addr sources.now) main.now ports.now }
{
    if f.fsf == 12 {
        return Ok(0);
    }
    constant_or_read(f, f.fsf == 2, sources, main, ports)
}

// The place that a write goes to: class 3 writes to a port.
fn place_of(class: u8, at: u32) -> Place
    ensures { result ≡ place_by (eqb class 3) at }
{
    if class == 3 {
        return Place::Port(PortNumber(at));
    }
    Place::Main(MainAddress(at))
}

// A result for a register: which one (0, 1 or 2 for A, X or Y: its place among the sources, so that it is found without a test), its value, and P, B and
// STOP after it.
#[derive(Clone, Copy, Debug, PartialEq, Eq)]
struct Delivery {
    to: u32,
    value: u32,
    p: u32,
    b: bool,
    stop: bool,
}

// A function's result: for A, X or Y (the classes 4, 5 and 6), or for P (7 to 9), where a call also puts N in Y.
fn deliver(
    class: u8,
    f: Fields,
    r: u32,
    sources: &mut [u32; 4],
    p: u32,
    b: bool,
    main: &[u32],
    ports: &[u32],
    trail: &mut [u8],
    used: usize,
) -> Result<Next, Undone>
    requires lawful { Lawful p (length main.now) (length ports.now) (length trail.old) used × (length sources.old ≡ 4) }
    requires in_range { InRange (state (held sources.old p b false) (ram main.now ports.now)) }
    requires decodes { Decodes (held sources.old p b false) main.now f class r × (4 ≤ class) }
    ensures { Kept result sources.old sources.new × (ended (came result sources.new) (ram main.now ports.now) trail.new ≡ once (held sources.old p b false) (ram main.now ports.now) trail.old used) }
{
    let next = p + 1;
    let d = if class >= 7 {
        if (class == 8) & !b {
            return finish_flags(p, b, next, b, false, trail, used);
        }
        if (class == 9) & b {
            return finish_flags(p, b, next, b, false, trail, used);
        }
        let o = constant_or_read(f, false, sources, main, ports);
        match o {
            Ok(v) => {
                let t = word::alu_jump(f.fsf, r, v, b);
                if f.fsf != 1 {
                    return finish_flags(p, b, t.value % 0x10_0000, t.b, t.stop, trail, used);
                }
                Delivery {
                    to: 2,
                    value: next,
                    p: t.value % 0x10_0000,
                    b: t.b,
                    stop: t.stop,
                }
            }
            Err(NoOperand::Bad) => {
                return finish_flags(p, b, next, b, true, trail, used);
            }
            Err(NoOperand::Unfitted) => {
                return Err(Undone::Unfitted);
            }
        }
    } else {
        let o = operand_of(f, sources, main, ports);
        match o {
            Ok(v) => {
                let t = word::alu_register(f.fsf, f.msf, r, v, b);
                Delivery {
                    to: f.dsf,
                    value: t.value,
                    p: next,
                    b: t.b,
                    stop: t.stop,
                }
            }
            Err(NoOperand::Bad) => {
                return finish_flags(p, b, next, b, true, trail, used);
            }
            Err(NoOperand::Unfitted) => {
                return Err(Undone::Unfitted);
            }
        }
    };
    finish_register(sources, d.to, p, b, d.value, d.p, d.b, d.stop, trail, used)
}

// One step of a machine with these sources, P and B, that is not stopped.
pub fn step_once(
    table: &ClassTable,
    sources: &mut [u32; 4],
    p: u32,
    b: bool,
    main: &mut [u32],
    ports: &mut [u32],
    trail: &mut [u8],
    used: usize,
) -> Result<Next, Undone>
    requires lawful { Lawful p (length main.old) (length ports.old) (length trail.old) used × (length sources.old ≡ 4) }
    requires in_range { InRange (state (held sources.old p b false) (ram main.old ports.old)) }
    ensures { Kept result sources.old sources.new × (ended (came result sources.new) (ram main.new ports.new) trail.new ≡ once (held sources.old p b false) (ram main.old ports.old) trail.old used) }
{
    let Some(w) = word_in(main, p) else {
        return Err(Undone::Unfitted);
    };
    if p == 0xF_FFFF {
        // N does not fit P.
        return finish_flags(p, b, 0, b, true, trail, used);
    }
    let next = p + 1;
    sources[3] = next;
    let class = table.class_of(w);
    let f = Fields::of_word(w);
    let r = f.register(sources);
    if class < 4 {
        // A comparison, a word that always halts, or a write: no register changes.
        if class == 0 {
            let o = constant_or_read(f, false, sources, main, ports);
            match o {
                Ok(v) => {
                    let test = word::compare(f.fsf, r, v, b);
                    return finish_flags(p, b, next, test, false, trail, used);
                }
                Err(NoOperand::Bad) => {
                    return finish_flags(p, b, next, b, true, trail, used);
                }
                Err(NoOperand::Unfitted) => {
                    return Err(Undone::Unfitted);
                }
            }
        }
        if class == 1 {
            return finish_flags(p, b, next, b, true, trail, used);
        }
        let at = f.address(sources);
        if at >= 0x10_0000 {
            return finish_flags(p, b, next, b, true, trail, used);
        }
        let place = place_of(class, at);
        if !is_fitted(main, ports, place) {
            return Err(Undone::Unfitted);
        }
        return finish_word(p, b, place, r, next, main, ports, trail, used);
    }
    deliver(class, f, r, sources, p, b, main, ports, trail, used)
}
