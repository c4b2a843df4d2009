// A number in groups of seven bits, read (document 01, "The trail").
ghost use Rattle.std.specs.Prelude.{◌≡◌, ◌^◌, ◌<◌, ◌≤◌, length};
ghost use Rattle.std.proofs.Math.Seq.{slice};
ghost use Rattle.trail.specs.Numbers.{over, below, read_below, read_in};
ghost use Rattle.reading.specs.Finding.{number_of};

use trail::Broken;

// The number below `bound` that stands at `at` and ends before `end`, with the place after it. Called, and not put in line, it made a take-back a
// fifth longer. Each number has a bound of its own, so the bound is an argument, and that it is at most 2^32 a fact of the contract.
#[inline(always)]
pub fn read_number(bytes: &[u8], at: usize, end: usize, bound: u64) -> Result<(u32, usize), Broken>
    requires { (end ≤ length bytes.now) × (bound ≤ 2 ^ 32) }
    ensures { result ≡ number_of end (read_below bound (slice at end bytes.now)) }
{
    if end <= at {
        return Err(Broken);
    }
    let b = bytes[at] as u64;
    if b < 128 {
        if b < bound {
            return Ok((b as u32, at + 1));
        }
        return Err(Broken);
    }
    if bound <= 128 {
        // Two groups or more come to 128 or more.
        return Err(Broken);
    }
    if at + 1 < end {
        // Two groups or three, the most common numbers after one: no loop.
        let c = bytes[at + 1] as u64;
        if c < 128 {
            let n = b % 128 + 128 * c;
            if (0 < c) & (n < bound) {
                return Ok((n as u32, at + 2));
            }
            // A group too many, or too large.
            return Err(Broken);
        }
        if at + 2 < end {
            let d = bytes[at + 2] as u64;
            let n = b % 128 + 128 * (c % 128) + 16_384 * d;
            if (0 < d) & (d < 128) & (n < bound) {
                return Ok((n as u32, at + 3));
            }
        }
    }
    read_more(bytes, at + 1, end, b - 128, bound)
}

// The same, from its second group on; the first gave `first`. Called, it made taking back and seeking long records a quarter longer.
#[inline(always)]
fn read_more(
    bytes: &[u8],
    at: usize,
    end: usize,
    first: u64,
    bound: u64,
) -> Result<(u32, usize), Broken>
    requires { (end ≤ length bytes.now) × (first < 128) × (bound ≤ 2 ^ 32) }
    ensures { result ≡ number_of end (below bound (over first (read_in 3 (slice at end bytes.now)))) }
{
    let mut low = first;
    let mut scale: u64 = 128;
    for next in at..end {
        let b = bytes[next] as u64;
        if b < 128 {
            if b == 0 {
                // A group too many.
                return Err(Broken);
            }
            let n = low + scale * b;
            if n < bound {
                return Ok((n as u32, next + 1));
            }
            return Err(Broken);
        }
        if scale >= bound {
            // One group more makes it too large.
            return Err(Broken);
        }
        low = low + scale * (b - 128);
        scale = scale * 128;
    }
    Err(Broken)
}
