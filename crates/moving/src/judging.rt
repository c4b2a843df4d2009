// A trail judged from its end, record by record (document 01, "The trail"; document 02, W12). No byte is written here.
ghost use Rattle.std.specs.Prelude.{◌≡◌, ◌^◌, ◌<◌, ◌≤◌, length};
ghost use Rattle.report.specs.AnnexA.{BV};
ghost use Rattle.trail.specs.Newest.{newest_in};
ghost use Rattle.moving.specs.Rows.{records};
ghost use Rattle.moving.specs.Moving.{start_of, count_of, room_of, moved_length};

use crate::MoveRefusal;
use reading::{read_number, read_record};
use trail::Broken;

// The bounds of L in the old form.
const LENGTHS: u64 = 28;

const SHORTEST: usize = 2;

// The bytes of a kind, in a form that has kinds or not.
pub(crate) fn kind_bytes(kinds: bool) -> usize
    ensures { result ≡ BV kinds }
{
    usize::from(kinds)
}

// Where the newest record of the first `used` bytes begins. These tests on L are for either form; `reading::newest`, which stands on the way of a take back, has
// them for the new form alone.
fn newest_start(kinds: bool, s: &[u8], used: usize) -> Result<usize, Broken>
    requires { (0 < used) × (used ≤ length s.now) }
    ensures { result ≡ start_of (newest_in kinds (2 ^ 21) s.now used) }
{
    let end = used - 1;
    let lead = kind_bytes(kinds);
    let (l, _) = read_number(s, end, used, LENGTHS + lead as u64)?;
    let n = l as usize;
    if n < SHORTEST + lead {
        return Err(Broken);
    }
    if end < n {
        return Err(Broken);
    }
    let record = read_record(kinds, s, end - n, end)?;
    Ok(record.left)
}

// All records, counted from the end. The walk goes from where a record begins to where the one before it does, so no range and no iterator of std gives its places.
pub(crate) fn count_records(kinds: bool, s: &[u8]) -> Result<usize, Broken>
    ensures { result ≡ count_of (records kinds s.now) }
{
    let mut used = s.len();
    let mut n = 0usize;
    while used > 0 {
        used = newest_start(kinds, s, used)?;
        n += 1;
    }
    Ok(n)
}

// How many bytes a trail of `used` bytes and n records has once it is moved, if an output of `out` bytes holds them. No sum is made that could be too large.
pub(crate) fn judge_room(new: bool, used: usize, n: usize, out: usize) -> Result<usize, MoveRefusal>
    requires { n ≤ used }
    ensures { result ≡ room_of out (moved_length new used n) }
{
    if new {
        if out < used {
            return Err(MoveRefusal::Short);
        }
        if out - used < n {
            return Err(MoveRefusal::Short);
        }
        return Ok(used + n);
    }
    if out < used - n {
        return Err(MoveRefusal::Short);
    }
    Ok(used - n)
}
