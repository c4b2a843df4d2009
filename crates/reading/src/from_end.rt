// The newest record, read back from the end of the bytes in use (document 01, "The trail"). No trail byte is written here.
ghost use Rattle.std.specs.Prelude.{◌≡◌, ◌^◌, ◌<◌, ◌≤◌, length};
ghost use Rattle.std.proofs.Math.Seq.{slice};
ghost use Rattle.trail.specs.Newest.{leaving, read_in_form, newest_fitted};
ghost use Rattle.reading.specs.Finding.{word_fits};

use crate::reader::TrailReader;
use machine::Place;
use trail::places::place_of_number;
use trail::{Broken, Kind, Newest, OldValues};

// The bounds of what is read: L, a kind, the marks, P, the number of a place, and a register or a word.
const LENGTHS: u64 = 29;

pub(crate) const SHORTEST: usize = 3;

pub(crate) const KINDS: u64 = 5;

pub(crate) const MARKS: u64 = 64;

pub(crate) const ADDRESSES: u64 = 1_048_576;

const PLACES: u64 = 2_097_152;

const WORDS: u64 = 4_294_967_296;

// The record whose bytes before L stand from `start` to `end`, in the new form, whose first number is the kind, or in the old one.
#[tactic(auto, unfolding(trail::specs::Newest::read_in_form), using(crate::proofs::ReadingNumbers::the_error, crate::proofs::ReadingNumbers::kind_known))]
pub fn read_record(kinds: bool, bytes: &[u8], start: usize, end: usize) -> Result<Newest, Broken>
    requires { (start ≤ end) × (end < length bytes.now) }
    ensures { result ≡ leaving start (read_in_form kinds (2 ^ 21) (slice start end bytes.now)) }
{
    let mut r = TrailReader::new(bytes, start, end);
    let kind = Kind::try_from(r.next_if(kinds, KINDS)?)?;
    let marks = r.next_number(MARKS)?;
    let p = r.next_number(ADDRESSES)?;
    let a = r.next_if(marks / 1 % 2 == 1, WORDS)?;
    let x = r.next_if(marks / 2 % 2 == 1, WORDS)?;
    let y = r.next_if(marks / 4 % 2 == 1, WORDS)?;
    let place = r.next_if(marks / 8 % 2 == 1, PLACES)?;
    let value = r.next_if(marks / 8 % 2 == 1, WORDS)?;
    if r.is_at_end() {
        let values = OldValues {
            kind,
            marks,
            p,
            a,
            x,
            y,
            place,
            value,
        };
        return Ok(Newest {
            values,
            left: start,
        });
    }
    Err(Broken)
}

// Whether the word of a record has a fitted place, in the store that its number names. A record that marks no word asks for none.
fn is_fitted(o: OldValues, main: usize, ports: usize) -> bool
    ensures { result ≡ word_fits main ports o }
{
    if o.marks / 8 % 2 == 0 {
        return true;
    }
    match place_of_number(o.place) {
        Place::Main(n) => (n.0 as usize) < main,
        Place::Port(n) => (n.0 as usize) < ports,
    }
}

// The newest record of a trail of which `used` bytes are in use, beside stores of these lengths.
pub fn newest(trail: &[u8], used: usize, main: usize, ports: usize) -> Result<Newest, Broken>
    requires { (0 < used) × (used ≤ length trail.now) }
    ensures { result ≡ newest_fitted main ports trail.now used }
{
    let end = used - 1;
    // The last byte in use is L. It is below 29, and so a number of one group.
    let l = TrailReader::new(trail, end, used).next_number(LENGTHS)?;
    let n = l as usize;
    if n < SHORTEST {
        return Err(Broken);
    }
    if end < n {
        return Err(Broken);
    }
    let record = read_record(true, trail, end - n, end)?;
    if is_fitted(record.values, main, ports) {
        return Ok(record);
    }
    Err(Broken)
}
