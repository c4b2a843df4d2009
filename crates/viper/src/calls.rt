// The public calls. Each is its refusals in the order of their numbers, and then one function that does the work (document 01).
ghost use Rattle.std.specs.Prelude.{◌≡◌, List, ℕ, length};
ghost use Rattle.machine.specs.Held.{ram};
ghost use Rattle.viper.specs.Noting.{noted};
ghost use Rattle.viper.specs.Operations.{reset as reset_op, force as force_op, step as step_op, set_word, outcome};
ghost use Rattle.viper.specs.Runs.{over_and_over, run_outcome};
ghost use Rattle.viper.specs.TakingBack.{back_outcome};
ghost use Rattle.viper.specs.Told.{bench, told, run_told};
ghost use Rattle.step.specs.Lawful.{Lawful};
ghost use Rattle.step.specs.Phases.{held};
ghost use Rattle.viper.specs.Judging.{first_refusals, ran_told};

use crate::back::{machine_restored, restore_stores};
use crate::views::is_fitted;
use crate::{After, Ran, Refusal};
use machine::{Ending, Machine, Place};
use step::finish::{Undone, changed_to, put_word, word_at};
use step::phases::step_once;
use trail::Kind;

// Refusals 1 to 3, by P, the words of both stores, the bytes of the trail and those in use.
pub(crate) fn judge(
    p: u32,
    main: usize,
    ports: usize,
    trail: usize,
    used: usize,
) -> Result<(), Refusal>
    ensures { result ≡ first_refusals p main ports trail used }
{
    if p >= 0x10_0000 {
        return Err(Refusal::PTooLarge);
    }
    if main > 0x10_0000 {
        return Err(Refusal::StoreTooLong);
    }
    if ports > 0x10_0000 {
        return Err(Refusal::StoreTooLong);
    }
    if used > trail {
        return Err(Refusal::CountTooLarge);
    }
    Ok(())
}

// The machine whose A, X and Y stand first among the sources, put together where a run ends.
fn machine_held(sources: &[u32; 4], p: u32, b: bool, stop: bool) -> Machine
    ensures { result ≡ held sources.now p b stop }
{
    Machine {
        a: sources[0],
        x: sources[1],
        y: sources[2],
        p,
        b,
        stop,
    }
}

// Steps until STOP is set, the budget is used up, or a step is refused. It alone steps. In the loop the machine is in pieces: A, X and Y, with
// a fourth place for N, are an array, so that a step finds a register by its number.
// The loop is no range over the budget: STOP is asked before the budget is, and the steps done are an answer.
fn advance(
    m: Machine,
    main: &mut [u32],
    ports: &mut [u32],
    trail: &mut [u8],
    used: usize,
    budget: u32,
) -> Ran
    requires { Lawful m.p (length main.old) (length ports.old) (length trail.old) used }
    ensures { ran_told result main.new ports.new trail.new ≡ over_and_over budget (bench m main.old ports.old trail.old used) }
{
    let table = instruction::ClassTable::new();
    let mut sources = [m.a, m.x, m.y, 0];
    let mut p = m.p;
    let mut b = m.b;
    let mut stop = m.stop;
    let mut count = used;
    let mut steps: u32 = 0;
    let ending = loop {
        if stop {
            break Ending::Stopped;
        }
        if steps == budget {
            break Ending::Budget;
        }
        match step_once(&table, &mut sources, p, b, main, ports, trail, count) {
            Ok(next) => {
                p = next.p;
                b = next.b;
                stop = next.stop;
                count = next.used;
            }
            Err(Undone::Unfitted) => break Ending::Unfitted,
            Err(Undone::Full) => break Ending::Full,
        }
        steps += 1;
    };
    Ran {
        machine: machine_held(&sources, p, b, stop),
        used: count,
        steps,
        ending,
    }
}

// One instruction.
#[tactic(auto, using(crate::proofs::Exits::passed, crate::proofs::Exits::refused_first, crate::proofs::Exits::refused_stopped, crate::proofs::Exits::stepped_once, crate::proofs::Exits::step_refused))]
pub fn step(
    m: Machine,
    main: &mut [u32],
    ports: &mut [u32],
    trail: &mut [u8],
    used: usize,
) -> Result<After, Refusal>
    ensures { told result m used main.new ports.new trail.new ≡ outcome step_op (bench m main.old ports.old trail.old used) }
{
    judge(m.p, main.len(), ports.len(), trail.len(), used)?;
    if m.stop {
        return Err(Refusal::Stopped);
    }
    let ran = advance(m, main, ports, trail, used, 1);
    match ran.ending {
        Ending::Stopped | Ending::Budget => Ok(After {
            machine: ran.machine,
            used: ran.used,
        }),
        Ending::Unfitted => Err(Refusal::Unfitted),
        Ending::Full => Err(Refusal::TrailFull),
    }
}

// Steps until STOP is set, the budget is used up, or a step is refused, with the earlier steps kept.
#[tactic(auto, using(crate::proofs::Exits::passed, crate::proofs::Exits::run_refused, crate::proofs::Exits::run_ended))]
pub fn run(
    m: Machine,
    main: &mut [u32],
    ports: &mut [u32],
    trail: &mut [u8],
    used: usize,
    budget: u32,
) -> Result<Ran, Refusal>
    ensures { run_told result m used main.new ports.new trail.new ≡ run_outcome budget (bench m main.old ports.old trail.old used) }
{
    judge(m.p, main.len(), ports.len(), trail.len(), used)?;
    Ok(advance(m, main, ports, trail, used, budget))
}

// An operation on the machine alone: its record goes to the trail, whatever the stores hold. No store is lent, so none is too long.
#[tactic(auto, using(crate::proofs::Exits::passed, crate::proofs::Exits::noted_refused, crate::proofs::Exits::noted_full, crate::proofs::Exits::noted_done))]
fn note(
    kind: Kind,
    m: Machine,
    after: Machine,
    trail: &mut [u8],
    used: usize,
) -> Result<After, Refusal>
    ensures { (main ports : List ℕ) → told result m used main ports trail.new ≡ noted kind m after (ram main ports) trail.old used }
{
    judge(m.p, 0, 0, trail.len(), used)?;
    let o = trail::records::old_values(kind, m, after, None);
    let used = trail::records::add(trail, used, o)?;
    Ok(After {
        machine: after,
        used,
    })
}

// Clears A, X, Y, P, B and STOP.
#[tactic(auto, using(crate::proofs::Exits::reset_is))]
pub fn reset(m: Machine, trail: &mut [u8], used: usize) -> Result<After, Refusal>
    ensures { (main ports : List ℕ) → told result m used main ports trail.new ≡ outcome reset_op (bench m main ports trail.old used) }
{
    note(Kind::Reset, m, Machine::default(), trail, used)
}

// Sets STOP, also when it is set already.
#[tactic(auto, using(crate::proofs::Exits::force_is))]
pub fn force(m: Machine, trail: &mut [u8], used: usize) -> Result<After, Refusal>
    ensures { (main ports : List ℕ) → told result m used main ports trail.new ≡ outcome force_op (bench m main ports trail.old used) }
{
    note(Kind::Force, m, Machine { stop: true, ..m }, trail, used)
}

// Puts a value at a main address or port number, on a halted machine too.
#[tactic(auto, using(crate::proofs::Exits::passed, crate::proofs::Exits::refused_first, crate::proofs::Exits::set_unfitted, crate::proofs::Exits::set_fitted, crate::proofs::Exits::set_full, crate::proofs::Exits::set_done))]
pub fn set(
    m: Machine,
    main: &mut [u32],
    ports: &mut [u32],
    trail: &mut [u8],
    used: usize,
    place: Place,
    value: u32,
) -> Result<After, Refusal>
    ensures { told result m used main.new ports.new trail.new ≡ outcome (set_word place value) (bench m main.old ports.old trail.old used) }
{
    judge(m.p, main.len(), ports.len(), trail.len(), used)?;
    if !is_fitted(main, ports, place, 1) {
        return Err(Refusal::Unfitted);
    }
    let old = word_at(main, ports, place);
    let o = trail::records::old_values(Kind::Set, m, m, changed_to(place, old, value));
    let used = trail::records::add(trail, used, o)?;
    put_word(main, ports, place, value);
    Ok(After { machine: m, used })
}

// Takes back the newest operation on the trail. No trail byte is written.
pub fn take_back(
    m: Machine,
    main: &mut [u32],
    ports: &mut [u32],
    trail: &[u8],
    used: usize,
) -> Result<After, Refusal>
    ensures { told result m used main.new ports.new trail.now ≡ back_outcome (bench m main.old ports.old trail.now used) }
{
    let back = restore_stores(m, main, ports, trail, used)?;
    Ok(After {
        machine: machine_restored(back.values, m),
        used: back.left,
    })
}
