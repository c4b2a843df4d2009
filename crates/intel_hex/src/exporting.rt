// Export (document 02, W4): sixteen data bytes a record, a type 04 record at the start and at each 64 KiB, one end record.
ghost use Rattle.std.specs.Prelude.{◌+◌, ◌*◌, ◌≤◌, ◌<◌, ◌≡◌, length, sum};
ghost use Rattle.intel_hex.specs.Layout.{pairs, record_line, data_bytes};
ghost use Rattle.intel_hex.specs.Exported.{upper_before, row, exported, exported_length, Exports};
ghost use Rattle.text.specs.Placed.{Placed};

use crate::{KIB_64, MOST};
use text::{Text, put_text};

// Why an export is refused.
#[derive(Clone, Copy, Debug, PartialEq, Eq)]
pub enum ExportRefusal {
    MainTooLong = 2,
    OutTooShort = 9,
}

// What at most sixteen bytes add up to.
fn sum_of(bytes: &[u8]) -> usize
    requires { length bytes.now ≤ 16 }
    ensures value { result ≡ sum bytes.now }
    ensures small { result ≤ 4080 }
{
    bytes.iter().map(|byte| *byte as usize).sum()
}

// The output is lent, and 11 MB where main is full, so what goes into it is put at a place, and each function that puts something there answers the
// place after it. The digits of a line go there two by two: a line that was made as a text first, and then copied from text to text, took more than
// twice as long.

// Each byte, as two digits.
fn put_pairs(out: &mut [u8], at: usize, bytes: &[u8]) -> usize
    requires { at + 2 * length bytes.now ≤ length out.old }
    ensures { Placed at (pairs bytes.now) out.old result out.new }
{
    let mut next = at;
    for byte in bytes {
        let mut pair: Text<2> = Text::new();
        pair.push_hex(2, *byte as usize);
        next = put_text(out, next, pair.as_bytes());
    }
    next
}

// The line of a record of at most sixteen data bytes.
fn put_line(out: &mut [u8], at: usize, record_type: u8, address: u16, bytes: &[u8]) -> usize
    requires { (at + (12 + 2 * length bytes.now) ≤ length out.old) × (length bytes.now ≤ 16) }
    ensures { Placed at (record_line record_type address bytes.now) out.old result out.new }
{
    let [high, low] = address.to_be_bytes();
    let head = [bytes.len() as u8, high, low, record_type];
    let total = sum_of(&head) + sum_of(bytes);
    let mut next = put_text(out, at, b":");
    next = put_pairs(out, next, &head);
    next = put_pairs(out, next, bytes);
    next = put_pairs(out, next, &[((256 - total % 256) % 256) as u8]);
    put_text(out, next, b"\n")
}

// The bytes of words, from the start.
fn put_words(out: &mut [u8], words: &[u32]) -> usize
    requires { 4 * length words.now ≤ length out.old }
    ensures { Placed 0 (data_bytes words.now) out.old result out.new }
{
    let mut next: usize = 0;
    for word in words {
        next = put_text(out, next, &word.to_be_bytes());
    }
    next
}

// The type 04 record before row i, where a further 64 KiB starts.
fn put_upper_before(out: &mut [u8], at: usize, i: usize) -> usize
    requires { (at + length (upper_before i) ≤ length out.old) × (i < 262144) }
    ensures { Placed at (upper_before i) out.old result out.new }
{
    if i == 0 || i % 4096 != 0 {
        return at;
    }
    let upper = (i / 4096) as u16;
    put_line(out, at, 4, 0, &upper.to_be_bytes())
}

// Row i of main: what stands before it, then its words, which the last row may have fewer than four of.
fn put_row(out: &mut [u8], at: usize, main: &[u32], i: usize) -> usize
    requires { (at + length (row i main.now) ≤ length out.old) × (4 * i ≤ length main.now) × (i < 262144) }
    ensures { Placed at (row i main.now) out.old result out.new }
{
    let next = put_upper_before(out, at, i);
    let last = main.len().min(4 * i + 4);
    let mut bytes = [0; 16];
    let count = put_words(&mut bytes, &main[4 * i..last]);
    put_line(out, next, 0, (16 * i % KIB_64) as u16, &bytes[..count])
}

// The whole export, into an output that has room for it.
fn put_all(out: &mut [u8], main: &[u32]) -> usize
    requires { (length (exported main.now) ≤ length out.old) × (length main.now ≤ 1048576) }
    ensures { Placed 0 (exported main.now) out.old result out.new }
{
    let mut at = put_line(out, 0, 4, 0, &[0, 0]);
    for i in 0..main.len().div_ceil(4) {
        at = put_row(out, at, main, i);
    }
    put_line(out, at, 1, 0, &[])
}

// The length of an export of n words.
#[tactic(auto, unfolding(crate::specs::Exported::exported_length))]
fn length_of(n: usize) -> usize
    requires { n ≤ 1048576 }
    ensures { result ≡ exported_length n }
{
    let blocks = if n == 0 { 1 } else { n.div_ceil(16384) };
    12 + 16 * blocks + 12 * n.div_ceil(4) + 8 * n
}

// Main as Intel HEX, from the start of the output: how many bytes it wrote; those past them stay. A refused export writes no byte.
#[tactic(auto, unfolding(crate::specs::Exported::export_answer), using(crate::proofs::Lengths::exported_length_is))]
pub fn export_hex(main: &[u32], out: &mut [u8]) -> Result<usize, ExportRefusal>
    ensures { Exports main.now out.old result out.new }
{
    if main.len() > MOST {
        return Err(ExportRefusal::MainTooLong);
    }
    let length = length_of(main.len());
    if out.len() < length {
        return Err(ExportRefusal::OutTooShort);
    }
    put_all(out, main);
    Ok(length)
}
