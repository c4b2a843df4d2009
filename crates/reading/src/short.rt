// The newest record where three or four bytes stand before L, its kind first: most steps add such a one. Its numbers stand at known places, so
// none is looked for, and taking it back is quick. No trail byte is written here.
ghost use Rattle.std.specs.Prelude.{◌≡◌, ℕ, ◌-◌, ◌%◌, ◌<◌, ◌≤◌, length, get_or};
ghost use Rattle.trail.specs.Newest.{newest_fitted};
ghost use Rattle.trail.specs.Records.{kind_read};
ghost use Rattle.reading.specs.Finding.{Says, Tells, MarksAt, TwoBytes, unmarked, with_value, after_kind};

use crate::from_end::{ADDRESSES, KINDS, MARKS, SHORTEST};
use crate::reader::TrailReader;
use trail::{Broken, Kind, OldValues};

// The bounds of an L so small, and of a number of one group.
const SHORT: u64 = 5;

const GROUP: u64 = 128;

// What a record is known to mark beside the flags: nothing, or A, X or Y alone. Any is said of a record whose marks have still to be asked.
#[derive(Clone, Copy, Debug, PartialEq, Eq)]
pub enum Marked {
    Nothing,
    A,
    X,
    Y,
    Any,
}

// A record read back: what it is known to mark (a short one nothing, or one register alone), its old values, and the count of bytes in use once it is gone.
#[derive(Clone, Copy, Debug, PartialEq, Eq)]
pub struct MarkedRecord {
    pub marked: Marked,
    pub values: OldValues,
    pub left: usize,
}

// The kind whose number is the byte at a place.
fn kind_at(trail: &[u8], at: usize) -> Result<Kind, Broken>
    requires { at < length trail.now }
    ensures { result ≡ kind_read (get_or trail.now at 0) }
{
    let n = TrailReader::new(trail, at, at + 1).next_number(KINDS)?;
    Kind::try_from(n)
}

// The old values of a record that marks nothing.
fn unmarked(kind: Kind, marks: u32, p: u32) -> OldValues
    ensures { result ≡ unmarked kind marks p }
{
    OldValues {
        kind,
        marks,
        p,
        a: 0,
        x: 0,
        y: 0,
        place: 0,
        value: 0,
    }
}

// After the kind, marks and P, each one byte: nothing is marked.
fn two_bytes(kind: Kind, trail: &[u8], end: usize) -> Result<MarkedRecord, Broken>
    requires { (3 ≤ end) × (end < length trail.now) }
    ensures { Tells result (after_kind kind trail.now end 2) }
{
    let mut r = TrailReader::new(trail, end - 2, end);
    let marks = r.next_number(MARKS)?;
    if marks % 16 != 0 {
        return Err(Broken);
    }
    let p = r.next_number(GROUP)?;
    Ok(MarkedRecord {
        marked: Marked::Nothing,
        values: unmarked(kind, marks, p),
        left: end - 3,
    })
}

// After the kind and marks that mark nothing, P in two bytes.
fn wide_p(kind: Kind, marks: u32, trail: &[u8], end: usize) -> Result<MarkedRecord, Broken>
    requires { (4 ≤ end) × (end < length trail.now) × MarksAt trail.now (end - 3) marks × (marks % 16 ≡ 0) }
    ensures { Tells result (after_kind kind trail.now end 3) }
{
    let mut r = TrailReader::new(trail, end - 2, end);
    let p = r.next_number(ADDRESSES)?;
    if r.is_at_end() {
        return Ok(MarkedRecord {
            marked: Marked::Nothing,
            values: unmarked(kind, marks, p),
            left: end - 4,
        });
    }
    Err(Broken)
}

// The two bytes before L, each a number.
fn two_numbers(trail: &[u8], end: usize) -> Result<(u32, u32), Broken>
    requires { (2 ≤ end) × (end < length trail.now) }
    ensures { TwoBytes trail.now end result }
{
    let mut r = TrailReader::new(trail, end - 2, end);
    let p = r.next_number(GROUP)?;
    let value = r.next_number(GROUP)?;
    Ok((p, value))
}

// A record with the only value that these marks mark. A word or two registers do not go into one byte.
#[tactic(auto, unfolding(crate::specs::Finding::with_value))]
fn with_value(
    kind: Kind,
    marks: u32,
    p: u32,
    value: u32,
    left: usize,
) -> Result<MarkedRecord, Broken>
    ensures { result ≡ with_value kind marks p value left }
{
    let base = unmarked(kind, marks, p);
    match marks % 16 {
        1 => Ok(MarkedRecord {
            marked: Marked::A,
            values: OldValues { a: value, ..base },
            left,
        }),
        2 => Ok(MarkedRecord {
            marked: Marked::X,
            values: OldValues { x: value, ..base },
            left,
        }),
        4 => Ok(MarkedRecord {
            marked: Marked::Y,
            values: OldValues { y: value, ..base },
            left,
        }),
        _ => Err(Broken),
    }
}

// The newest record of a trail of which `used` bytes are in use, if it is so short; none, if it is longer. It marks no word, so the stores do not matter.
pub fn read_short(trail: &[u8], used: usize) -> Result<Option<MarkedRecord>, Broken>
    requires { (0 < used) × (used ≤ length trail.now) }
    ensures { (main ports : ℕ) → Says (get_or trail.now (used - 1) 0) result (newest_fitted main ports trail.now used) }
{
    let end = used - 1;
    let Ok(n) = TrailReader::new(trail, end, used).next_number(SHORT) else {
        return Ok(None);
    };
    let l = n as usize;
    if l < SHORTEST {
        return Err(Broken);
    }
    if end < l {
        return Err(Broken);
    }
    let kind = kind_at(trail, end - l)?;
    if l == SHORTEST {
        return Ok(Some(two_bytes(kind, trail, end)?));
    }
    let marks = TrailReader::new(trail, end - 3, end - 2).next_number(MARKS)?;
    if marks % 16 == 0 {
        return Ok(Some(wide_p(kind, marks, trail, end)?));
    }
    // Something is marked: P and the only value have one byte each.
    let (p, value) = two_numbers(trail, end)?;
    Ok(Some(with_value(kind, marks, p, value, end - 4)?))
}
