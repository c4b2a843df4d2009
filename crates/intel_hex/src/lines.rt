// One line of an import (document 02, W4): a record in the standard's layout, then perhaps a carriage return, then a line feed.
// Each function is lent the text from the line on.
ghost use Rattle.std.specs.Prelude.{◌+◌, ◌*◌, ◌≤◌, ◌≡◌, true, drop};
ghost use Rattle.intel_hex.specs.Digits.{byte, some_byte};
ghost use Rattle.intel_hex.specs.Lines.{bytes, summed, ending, some_ending, size_of, well_formed, layout_of, line_of, with_size};

use crate::KIB_64;
use text::digit_value;

// The words of a data record, from the start of its 64 KiB.
#[derive(Clone, Copy, Debug, PartialEq, Eq)]
pub struct Span {
    pub first: usize,
    pub words: usize,
}

// What a line holds. `Upper` has the start of the 64 KiB that count from there, in words.
#[derive(Clone, Copy, Debug, PartialEq, Eq)]
pub enum Line {
    Data(Span),
    Upper(usize),
    End,
}

// The byte that two digits stand for at a place of the text.
#[tactic(auto, unfolding(crate::specs::Digits::byte, crate::specs::Digits::byte_of), using(crate::proofs::Bytes::no_sign, crate::proofs::Bytes::byte_past, crate::proofs::Bytes::byte_short))]
pub fn byte_at(text: &[u8], at: usize) -> Option<u8>
    ensures { result ≡ some_byte (byte (drop at text.now)) }
{
    let high = digit_value(*text.get(at)?)?;
    let low = digit_value(*text.get(at + 1)?)?;
    Some((16 * high + low) as u8)
}

// What the `count` bytes after the colon add up to, modulo 256, if each is one.
fn sum_of(line: &[u8], count: usize) -> Option<u8>
    requires { count ≤ 260 }
    ensures { result ≡ some_byte (summed (bytes count (drop 1 line.now))) }
{
    let mut total: u8 = 0;
    for k in 0..count {
        total = total.wrapping_add(byte_at(line, 1 + 2 * k)?);
    }
    Some(total)
}

// How many bytes end a line at a place of it.
#[tactic(auto, unfolding(crate::specs::Lines::ending, crate::specs::Lines::ending_of))]
fn ending_at(line: &[u8], at: usize) -> Option<usize>
    ensures { result ≡ some_ending (ending (drop at line.now)) }
{
    let (_, rest) = line.split_at_checked(at)?;
    match rest {
        [b'\n', ..] => Some(1),
        [b'\r', b'\n', ..] => Some(2),
        _ => None,
    }
}

// Whether the line has a record's colon, pairs, sum and ending.
#[tactic(auto, unfolding(crate::specs::Lines::well_formed), using(crate::proofs::Fields::no_count))]
fn is_well_formed(line: &[u8]) -> bool
    ensures { result ≡ well_formed line.now }
{
    let Some(count) = byte_at(line, 1) else {
        return false;
    };
    let count = count as usize;
    if line.first() != Some(&b':') {
        return false;
    }
    if sum_of(line, count + 5) != Some(0) {
        return false;
    }
    ending_at(line, 11 + 2 * count).is_some()
}

// The bytes of a well-formed line, its ending with them.
#[tactic(auto, unfolding(crate::specs::Lines::size_of), using(crate::proofs::Fields::count_there, crate::proofs::Fields::ending_there, crate::proofs::Bytes::ending_small))]
fn size_of(line: &[u8]) -> Option<usize>
    ensures { well_formed line.now ≡ true → result ≡ Some (size_of line.now) }
{
    let signs = 11 + 2 * byte_at(line, 1)? as usize;
    Some(signs + ending_at(line, signs)?)
}

// What the type of a well-formed line's record says.
#[tactic(auto, unfolding(crate::specs::Lines::layout_of, crate::specs::Lines::by_type, crate::specs::Lines::data_line, crate::specs::Lines::end_of, crate::specs::Lines::upper_of), using(crate::proofs::Fields::count_there, crate::proofs::Fields::high_there, crate::proofs::Fields::low_there, crate::proofs::Fields::type_there, crate::proofs::Fields::first_there, crate::proofs::Fields::second_there))]
fn layout_of(line: &[u8]) -> Option<Line>
    ensures { well_formed line.now ≡ true → result ≡ layout_of line.now }
{
    let count = byte_at(line, 1)? as usize;
    let address = 256 * byte_at(line, 3)? as usize + byte_at(line, 5)? as usize;
    match byte_at(line, 7)? {
        0 if count % 4 == 0 && address % 4 == 0 && address + count <= KIB_64 => Some(Line::Data(
            Span {
                first: address / 4,
                words: count / 4,
            },
        )),
        1 if count == 0 && address == 0 => Some(Line::End),
        4 if count == 2 && address == 0 => {
            let upper = 256 * byte_at(line, 9)? as usize + byte_at(line, 11)? as usize;
            Some(Line::Upper(16384 * upper))
        }
        _ => None,
    }
}

// What a well-formed line holds, and its bytes.
pub fn layout_at(line: &[u8]) -> Option<(Line, usize)>
    ensures { well_formed line.now ≡ true → result ≡ with_size line.now (layout_of line.now) }
{
    Some((layout_of(line)?, size_of(line)?))
}

// What the line holds, and its bytes.
#[tactic(auto, unfolding(crate::specs::Lines::line_of))]
pub fn line_at(line: &[u8]) -> Option<(Line, usize)>
    ensures { result ≡ with_size line.now (line_of line.now) }
{
    if is_well_formed(line) {
        return layout_at(line);
    }
    None
}
