// Taking back, but for the registers: `calls::take_back` puts those back in a `Machine`, and who holds the machine in another form puts them back
// in that form.
ghost use Rattle.std.specs.Prelude.{◌≡◌, cond, List, ℕ};
ghost use Rattle.machine.specs.Held.{ram, state, machine_of};
ghost use Rattle.trail.specs.Records.{restored};
ghost use Rattle.viper.specs.Noting.{stores_restored, Refits};
ghost use Rattle.viper.specs.Finding.{Finds};
ghost use Rattle.viper.specs.Told.{bench};

use crate::Refusal;
use crate::calls::judge;
use machine::Machine;
use reading::{Marked, MarkedRecord};
use step::finish::put_word;
use trail::OldValues;
use trail::places::place_of_number;

// Takes the newest operation back in the stores, and hands out its old values for the registers. Of the machine only P is asked.
#[tactic(auto, using(crate::proofs::Exits::passed, crate::proofs::Exits::back_first, crate::proofs::Exits::back_nothing, crate::proofs::Exits::back_broken, crate::proofs::Exits::back_refits, crate::proofs::Finding::restores, crate::proofs::Finding::short_restores, crate::proofs::Finding::short_broken))]
pub fn restore_stores(
    m: Machine,
    main: &mut [u32],
    ports: &mut [u32],
    trail: &[u8],
    used: usize,
) -> Result<MarkedRecord, Refusal>
    ensures { Finds result (ram main.new ports.new) (bench m main.old ports.old trail.now used) }
{
    judge(m.p, main.len(), ports.len(), trail.len(), used)?;
    if used == 0 {
        return Err(Refusal::NothingInUse);
    }
    // A short record marks no word, and at most one register.
    if let Some(short) = reading::read_short(trail, used)? {
        return Ok(short);
    }
    let newest = reading::newest(trail, used, main.len(), ports.len())?;
    word_restored(newest.values, main, ports);
    Ok(MarkedRecord {
        marked: Marked::Any,
        values: newest.values,
        left: newest.left,
    })
}

// The machine with the old values of a record: what is not marked stays.
#[tactic(auto, unfolding(trail::specs::Records::restored))]
pub(crate) fn machine_restored(o: OldValues, m: Machine) -> Machine
    ensures { (main ports : List ℕ) → result ≡ machine_of (restored o (state m (ram main ports))) }
{
    let marks = o.marks;
    Machine {
        a: if marks / 1 % 2 == 1 { o.a } else { m.a },
        x: if marks / 2 % 2 == 1 { o.x } else { m.x },
        y: if marks / 4 % 2 == 1 { o.y } else { m.y },
        p: o.p,
        b: marks / 16 % 2 == 1,
        stop: marks / 32 % 2 == 1,
    }
}

// Puts back the word of a record that marks one.
fn word_restored(o: OldValues, main: &mut [u32], ports: &mut [u32])
    requires { Refits (ram main.old ports.old) o }
    ensures { ram main.new ports.new ≡ stores_restored o (ram main.old ports.old) }
{
    if o.marks / 8 % 2 == 1 {
        put_word(main, ports, place_of_number(o.place), o.value);
    }
}
