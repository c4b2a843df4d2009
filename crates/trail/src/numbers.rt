// Numbers in groups of seven bits, low group first, top bit set on all but the last, in the fewest groups (document 01, "The trail").
ghost use Rattle.std.specs.Prelude.{◌≡◌, ◌+◌, ◌%◌, ◌≤◌, length};
ghost use Rattle.trail.specs.Numbers.{groups, bytes_if, Put};

// The lowest group of a number that has more: seven bits, and the top bit set.
pub(crate) fn group(n: u32) -> u8
    ensures { result ≡ 128 + n % 128 }
{
    (128 + n % 128) as u8
}

// Puts a number into the bytes of a record, and answers the place after it. It takes five bytes at most. The place is counted
// by hand: as a method of the record, which then holds the place itself, it made every step 15 to 19 in the hundred longer.
pub(crate) fn put_number(bytes: &mut [u8; 28], at: usize, n: u32) -> usize
    requires { (at + 5 ≤ 28) × (length bytes.old ≡ 28) }
    ensures { Put at (groups n) bytes.old bytes.new result }
{
    let mut left = n;
    let mut next = at;
    while left >= 128 {
        bytes[next] = group(left);
        left = left / 128;
        next += 1;
    }
    bytes[next] = left as u8;
    next + 1
}

// The same for a number that is marked; nothing is put for one that is not.
pub(crate) fn put_if(marked: bool, bytes: &mut [u8; 28], at: usize, n: u32) -> usize
    requires { (at + 5 ≤ 28) × (length bytes.old ≡ 28) }
    ensures { Put at (bytes_if marked n) bytes.old bytes.new result }
{
    if marked {
        return put_number(bytes, at, n);
    }
    at
}
