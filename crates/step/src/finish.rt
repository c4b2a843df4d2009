// The last phase, which alone writes: the record goes to the trail, and then the word to its store (document 01, "The trail").
// A step changes at most one register or one word, and each kind has its finish. What a step changes comes to its finish in pieces: as one value
// it went through memory and cost a third of the time (docs/DECISIONS.md, "The form of the code"). So the bounds of P and of the count stand in each
// contract.
ghost use Rattle.std.specs.Prelude.{◌≡◌, false, List, ℕ, ◌≤◌, ◌<◌, ◌^◌, length, set};
ghost use Rattle.report.specs.AnnexA.{Mem};
ghost use Rattle.report.specs.Parts.{fitted, word_at, with_word};
ghost use Rattle.machine.specs.Held.{ram, where_of};
ghost use Rattle.trail.specs.Records.{record_bytes, added};
ghost use Rattle.trail.specs.OneChange.{registers_kept};
ghost use Rattle.step.specs.Phases.{held, alone, Word as the_written_Word};
ghost use Rattle.step.specs.Finishing.{Fitted, mark_weight, changed_to, came, Kept, ended, completed};

use machine::Place;
use trail::{OldWord, TrailFull};

// P, B and STOP after a step, and the count of bytes in use.
#[derive(Clone, Copy, Debug, PartialEq, Eq)]
pub struct Next {
    pub p: u32,
    pub b: bool,
    pub stop: bool,
    pub used: usize,
}

// Why a step was not done: it wants a word that is not fitted, or its record is longer than the free bytes.
#[derive(Clone, Copy, Debug, PartialEq, Eq)]
pub enum Undone {
    Unfitted,
    Full,
}

impl From<TrailFull> for Undone {
    ghost use Rattle.step.specs.declared.finish.Undone.TheVariants.{Full};

    ghost from_gives = { λ _ e. e ≡ Full };

    fn from(_e: TrailFull) -> Undone {
        Undone::Full
    }
}

// Whether a place is fitted.
#[tactic(auto, unfolding(report::specs::Parts::fitted))]
pub(crate) fn is_fitted(main: &[u32], ports: &[u32], place: Place) -> bool
    ensures { result ≡ fitted (ram main.now ports.now) (where_of place) }
{
    match place {
        Place::Main(n) => (n.0 as usize) < main.len(),
        Place::Port(n) => (n.0 as usize) < ports.len(),
    }
}

// The word at a fitted place.
#[tactic(auto, unfolding(report::specs::Parts::fitted, report::specs::Parts::word_at))]
pub fn word_at(main: &[u32], ports: &[u32], place: Place) -> u32
    requires { Fitted (ram main.now ports.now) (where_of place) }
    ensures { result ≡ word_at (ram main.now ports.now) (where_of place) }
{
    match place {
        Place::Main(n) => {
            let i = n.0 as usize;
            main[i]
        }
        Place::Port(n) => {
            let i = n.0 as usize;
            ports[i]
        }
    }
}

// Puts a value at a fitted place. No other function writes a word of a store.
#[tactic(auto, unfolding(report::specs::Parts::fitted, report::specs::Parts::with_word))]
pub fn put_word(main: &mut [u32], ports: &mut [u32], place: Place, value: u32)
    requires { Fitted (ram main.old ports.old) (where_of place) }
    ensures { ram main.new ports.new ≡ with_word (ram main.old ports.old) (where_of place) value }
{
    match place {
        Place::Main(n) => {
            let i = n.0 as usize;
            main[i] = value;
        }
        Place::Port(n) => {
            let i = n.0 as usize;
            ports[i] = value;
        }
    }
}

// A word with this old value, once a value is written over it.
pub fn changed_to(place: Place, old: u32, value: u32) -> Option<OldWord>
    ensures { result ≡ changed_to place old value }
{
    if old == value {
        return None;
    }
    Some(OldWord { place, value: old })
}

// Adds the record of a step that writes this value over the old one.
fn note_word(
    p: u32,
    b: bool,
    stop: bool,
    place: Place,
    old: u32,
    value: u32,
    trail: &mut [u8],
    used: usize,
) -> Result<usize, TrailFull>
    requires { (p < 2 ^ 20) × ((where_of place).1 < 2 ^ 20) × (used ≤ length trail.old) }
    ensures { (result, trail.new) ≡ added trail.old used (record_bytes (registers_kept p b stop (changed_to place old value))) }
{
    if old == value {
        return trail::records::add_flags(trail, used, p, b, stop);
    }
    trail::records::add_word(trail, used, p, b, stop, place, old)
}

// Finishes a step at P p0 with B b0 that changes P, B and STOP alone.
pub(crate) fn finish_flags(
    p0: u32,
    b0: bool,
    p: u32,
    b: bool,
    stop: bool,
    trail: &mut [u8],
    used: usize,
) -> Result<Next, Undone>
    requires { (p0 < 2 ^ 20) × (used ≤ length trail.old) }
    ensures { (stores : Mem) (sources : List ℕ) → ended (came result sources) stores trail.new ≡ completed (held sources p0 b0 false) (alone (held sources p b stop)) stores trail.old used }
{
    let used = trail::records::add_flags(trail, used, p0, b0, false)?;
    Ok(Next { p, b, stop, used })
}

// The weight of a register's mark: 1, 2 and 4 for A, X and Y.
fn mark_of(k: u32) -> u32
    requires { k < 3 }
    ensures { result ≡ mark_weight k }
{
    1 << k
}

// Finishes a step that puts v in the register of number k.
pub(crate) fn finish_register(
    sources: &mut [u32; 4],
    k: u32,
    p0: u32,
    b0: bool,
    v: u32,
    p: u32,
    b: bool,
    stop: bool,
    trail: &mut [u8],
    used: usize,
) -> Result<Next, Undone>
    requires { (k < 3) × (p0 < 2 ^ 20) × (used ≤ length trail.old) × (length sources.old ≡ 4) }
    ensures { Kept result sources.old sources.new × ((stores : Mem) → ended (came result sources.new) stores trail.new ≡ completed (held sources.old p0 b0 false) (alone (held (set sources.old k v) p b stop)) stores trail.old used) }
{
    let i = k as usize;
    let old = sources[i];
    if old == v {
        return finish_flags(p0, b0, p, b, stop, trail, used);
    }
    let used = trail::records::add_register(trail, used, mark_of(k), p0, b0, false, old)?;
    sources[i] = v;
    Ok(Next { p, b, stop, used })
}

// Finishes a step that writes a word to a fitted place.
pub(crate) fn finish_word(
    p0: u32,
    b0: bool,
    place: Place,
    v: u32,
    p: u32,
    main: &mut [u32],
    ports: &mut [u32],
    trail: &mut [u8],
    used: usize,
) -> Result<Next, Undone>
    requires p0_bound { (p0 < 2 ^ 20) × (used ≤ length trail.old) }
    requires fitted { Fitted (ram main.old ports.old) (where_of place) }
    ensures { (sources : List ℕ) → ended (came result sources) (ram main.new ports.new) trail.new ≡ completed (held sources p0 b0 false) (record { machine = held sources p b0 false; written = the_written_Word place v }) (ram main.old ports.old) trail.old used }
{
    let old = word_at(main, ports, place);
    let used = note_word(p0, b0, false, place, old, v, trail, used)?;
    put_word(main, ports, place, v);
    Ok(Next {
        p,
        b: b0,
        stop: false,
        used,
    })
}
