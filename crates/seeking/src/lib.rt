// Which operation hit this word (document 02, W7): the newest record that holds a place, and how many operations back it is. Nothing is written here.
#![tactic(auto)]

ghost use Rattle.std.specs.Prelude.{◌≡◌};
ghost use Rattle.seeking.specs.Seeking.{names as names_of, holds as holds_of, sought};

use machine::Place;
use reading::newest;
use trail::places::place_of_number;
use trail::{Broken, OldValues};

// A record that holds the place: how many operations back it is, the newest record being 1, and its old values.
#[derive(Clone, Copy, Debug, PartialEq, Eq)]
pub struct Hit {
    pub back: usize,
    pub values: OldValues,
}

// Why a place was not sought to the end: the count in use is larger than the trail, or a record is broken before any that holds the place.
#[derive(Clone, Copy, Debug, PartialEq, Eq)]
pub enum SeekRefusal {
    CountTooLarge = 3,
    Broken = 8,
}

impl From<Broken> for SeekRefusal {
    ghost use Rattle.std.specs.Prelude.{◌≡◌};
    ghost use Rattle.seeking.specs.declared.SeekRefusal.TheVariants as refusal;

    ghost from_gives = { λ _ e. e ≡ refusal.Broken };

    fn from(_e: Broken) -> SeekRefusal {
        SeekRefusal::Broken
    }
}

// Whether the number of a record's place is that of this place. An address of 2^20 or more is no number of a main word.
fn names(place: Place, number: u32) -> bool
    ensures { result ≡ names_of place number }
{
    place_of_number(number) == place
}

// Whether a record holds the place: it marks a word, and that one.
fn holds(place: Place, o: OldValues) -> bool
    ensures { result ≡ holds_of place o }
{
    o.marks / 8 % 2 == 1 && names(place, o.place)
}

// The newest record that holds the place, if one does, in a trail of which `used` bytes are in use, beside stores of these lengths.
// The walk goes from where a record begins to where the one before it does, so no range and no iterator of std gives its places.
#[tactic(auto, using(crate::proofs::Walking::too_large, crate::proofs::Walking::starts, crate::proofs::Walking::stops, crate::proofs::Walking::finds, crate::proofs::Walking::goes_down, crate::proofs::Walking::ends))]
pub fn find(
    main_words: usize,
    ports_words: usize,
    trail: &[u8],
    used: usize,
    place: Place,
) -> Result<Option<Hit>, SeekRefusal>
    ensures { result ≡ sought main_words ports_words trail.now used place }
{
    if used > trail.len() {
        return Err(SeekRefusal::CountTooLarge);
    }
    let mut end = used;
    let mut back = 0usize;
    while end > 0 {
        let record = newest(trail, end, main_words, ports_words)?;
        back += 1;
        if holds(place, record.values) {
            return Ok(Some(Hit {
                back,
                values: record.values,
            }));
        }
        end = record.left;
    }
    Ok(None)
}
