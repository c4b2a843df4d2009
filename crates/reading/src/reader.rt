// The trail reader: the lent bytes, a place in them, and the end of what is to be read (document 01, "A form for each place").
// It is thin: the work is `read_number`'s.
ghost use Rattle.std.specs.Prelude.{◌≡◌, ◌^◌, ◌≤◌, length, eqb};
ghost use Rattle.std.specs.Result.{OnErr};
ghost use Rattle.std.proofs.Math.Seq.{slice};
ghost use Rattle.trail.specs.Numbers.{read_below, read_if};
ghost use Rattle.reading.specs.Finding.{read_of};

use crate::numbers::read_number;
use std::marker::Model;
use trail::Broken;

#[derive(Drop)]
pub(crate) struct TrailReader<'a> {
    bytes: &'a [u8],
    place: usize,
    end: usize,
}

// A contract sees the bytes that are still to be read.
impl<'a> Model for TrailReader<'a> {
    ghost use Rattle.std.specs.Prelude.{ℕ, ◌≤◌, List, length};
    ghost use Rattle.std.proofs.Math.Seq.{slice};

    ghost Value = { List ℕ };

    ghost view = { λ r. slice r.place r.end r.bytes.now };

    ghost invariant = { λ r. (r.place ≤ r.end) × (r.end ≤ length r.bytes.now) };
}

impl<'a> TrailReader<'a> {
    // A reader of the bytes from `place` to `end`.
    pub(crate) fn new(bytes: &'a [u8], place: usize, end: usize) -> TrailReader<'a>
        requires { (place ≤ end) × (end ≤ length bytes.now) }
        ensures { result ≡ slice place end bytes.now }
    {
        TrailReader { bytes, place, end }
    }

    // The number below `bound` that stands next. The reader then stands after it, or where it stood if the number is broken.
    #[inline(always)]
    pub(crate) fn next_number(&mut self, bound: u64) -> Result<u32, Broken>
        requires { bound ≤ 2 ^ 32 }
        ensures reads { read_below bound self.old ≡ read_of result self.new }
        ensures stays { OnErr result (self.new ≡ self.old) }
    {
        let (n, next) = read_number(self.bytes, self.place, self.end, bound)?;
        self.place = next;
        Ok(n)
    }

    // The same, if it is marked; else 0, and no byte is read.
    #[inline(always)]
    pub(crate) fn next_if(&mut self, marked: bool, bound: u64) -> Result<u32, Broken>
        requires { bound ≤ 2 ^ 32 }
        ensures reads { read_if marked bound self.old ≡ read_of result self.new }
        ensures stays { OnErr result (self.new ≡ self.old) }
    {
        if marked {
            self.next_number(bound)
        } else {
            Ok(0)
        }
    }

    // Whether no byte is left.
    pub(crate) fn is_at_end(&self) -> bool
        ensures { result ≡ eqb (length self.now) 0 }
    {
        self.place == self.end
    }
}
