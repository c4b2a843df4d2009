// The bench: the calls step, run, reset, force, set a word, take back and view (document 01).
// The machine and the count in use go in by value, and a call that was not refused hands back both as they are after it; a refused one hands back
// its refusal alone, and the caller's own stay as they were. The two stores and the trail are lent, each by itself, as the calls for C lend them:
// reset and force are lent no store, and take back only reads the trail. No call has a `requires`: bad input is refused, and a refused call changes
// nothing.
#![tactic(auto)]

ghost use Rattle.std.specs.Prelude.{◌≡◌};

pub mod back;
pub mod calls;
pub mod views;

use machine::{Ending, Machine};
use trail::{Broken, TrailFull};

// Why a call was refused, by its number (document 01, "Numbers the counter sees").
#[derive(Clone, Copy, Debug, PartialEq, Eq)]
pub enum Refusal {
    PTooLarge = 1,
    StoreTooLong = 2,
    CountTooLarge = 3,
    Stopped = 4,
    Unfitted = 5,
    TrailFull = 6,
    NothingInUse = 7,
    BrokenRecord = 8,
}

impl From<TrailFull> for Refusal {
    ghost use Rattle.viper.specs.declared.Refusal.TheVariants as refusal;

    ghost from_gives = { λ _ e. e ≡ refusal.TrailFull };

    fn from(_e: TrailFull) -> Refusal {
        Refusal::TrailFull
    }
}

impl From<Broken> for Refusal {
    ghost use Rattle.viper.specs.declared.Refusal.TheVariants.{BrokenRecord};

    ghost from_gives = { λ _ e. e ≡ BrokenRecord };

    fn from(_e: Broken) -> Refusal {
        Refusal::BrokenRecord
    }
}

// The machine after a call that was not refused, and the count of bytes in use.
#[derive(Clone, Copy, Debug, PartialEq, Eq)]
pub struct After {
    pub machine: Machine,
    pub used: usize,
}

// What a run of steps came to: the machine, the bytes in use, the steps done and how it ended.
#[derive(Clone, Copy, Debug, PartialEq, Eq)]
pub struct Ran {
    pub machine: Machine,
    pub used: usize,
    pub steps: u32,
    pub ending: Ending,
}
