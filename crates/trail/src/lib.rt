// The trail (document 01, "The trail"): records of old values, each made whole and added right after the bytes in use. The crate reading reads them back.
#![tactic(auto)]

use machine::Place;

pub mod numbers;
pub mod places;
pub mod records;

// Who made a record (document 02, W12): its kind, the record's first number.
#[derive(Clone, Copy, Debug, PartialEq, Eq)]
pub enum Kind {
    FromOld = 0,
    Step = 1,
    Reset = 2,
    Force = 3,
    Set = 4,
}

// The kind of a number below 5.
impl TryFrom<u32> for Kind {
    ghost use Rattle.std.specs.Prelude.{◌≡◌};
    ghost use Rattle.trail.specs.Records.{kind_read};

    type Error = Broken;

    ghost try_from_gives = { λ number r. r ≡ kind_read number };

    fn try_from(number: u32) -> Result<Self, Broken> {
        match number {
            0 => Ok(Kind::FromOld),
            1 => Ok(Kind::Step),
            2 => Ok(Kind::Reset),
            3 => Ok(Kind::Force),
            4 => Ok(Kind::Set),
            _ => Err(Broken),
        }
    }
}

// What a record holds: its kind, the marks, and the old values. What is not marked is 0. The marks and the place stay the numbers that a record has and
// that C is handed (its eight words), since both are made and read on the way of each step; a mark is asked for by its weight, as the definition does.
#[derive(Clone, Copy, Debug, PartialEq, Eq)]
pub struct OldValues {
    pub kind: Kind,
    pub marks: u32,
    pub p: u32,
    pub a: u32,
    pub x: u32,
    pub y: u32,
    pub place: u32,
    pub value: u32,
}

// A word that an operation changed: its place and its old value.
#[derive(Clone, Copy, Debug, PartialEq, Eq)]
pub struct OldWord {
    pub place: Place,
    pub value: u32,
}

// A record is longer than the free bytes.
#[derive(Clone, Copy, Debug, PartialEq, Eq)]
pub struct TrailFull;

// The newest record: its old values and the count of bytes in use once it is gone.
#[derive(Clone, Copy, Debug, PartialEq, Eq)]
pub struct Newest {
    pub values: OldValues,
    pub left: usize,
}

// What is read is no record, or no number of one.
#[derive(Clone, Copy, Debug, PartialEq, Eq)]
pub struct Broken;

// The number that port 0 has as a place; a main address is its own number.
pub const FIRST_PORT: u32 = 1_048_576;
