// A sound trail copied in the other form, record by record from its end (document 02, W12).
ghost use Rattle.std.specs.Prelude.{◌≡◌, Ok, not, ◌+◌, ◌≤◌, length};
ghost use Rattle.report.specs.AnnexA.{BV};
ghost use Rattle.moving.specs.Moving.{moved_length, moved_record, PutBefore, Moves, move as move_of};

use crate::judging::kind_bytes;

// The record whose L bytes stand from `start` on, in the form that is asked for, right before the output's place `to`: in the new form the kind 0 and
// those bytes, in the old one the bytes after the kind; and their count. The output is lent, and answers where the record begins. L is that of the form in which the record is read.
fn put_record(new: bool, s: &[u8], start: usize, l: usize, out: &mut [u8], to: usize) -> usize
    requires { (start + l ≤ length s.now) × (2 + BV (not new) ≤ l) × (l ≤ 27 + BV (not new)) × (moved_length new (l + 1) 1 ≤ to) × (to ≤ length out.old) }
    ensures { PutBefore to (moved_record new s.now start l) out.old out.new result }
{
    let lead = kind_bytes(new);
    let kept = &s[start + kind_bytes(!new)..start + l];
    let n = kept.len() + lead;
    let at = to - 1 - n;
    out[to - 1] = n as u8;
    // Byte by byte: `copy_from_slice` is a call of memmove for a few bytes, and a name that an archive for C would need from outside.
    for (i, &byte) in kept.iter().enumerate() {
        out[at + lead + i] = byte;
    }
    if new {
        out[at] = 0;
    }
    at
}

// All records, so that they end at the output's place `total`, which is then their count of bytes. The walk goes from where a record begins to where the one
// before it does, so no range and no iterator of std gives its places.
pub(crate) fn write(new: bool, s: &[u8], out: &mut [u8], total: usize)
    requires { Moves new s.now total (length out.old) }
    ensures { move_of new s.now out.old ≡ (Ok total, out.new) }
{
    let mut used = s.len();
    let mut to = total;
    while used > 0 {
        let l = s[used - 1] as usize;
        let start = used - 1 - l;
        to = put_record(new, s, start, l, out, to);
        used = start;
    }
}
