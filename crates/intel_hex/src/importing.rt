// Import (document 02, W4): the text is judged whole, then its words go to main.
ghost use Rattle.std.specs.Prelude.{◌+◌, ◌*◌, ◌≤◌, ◌≡◌, true, length, drop};
ghost use Rattle.intel_hex.specs.Lines.{bytes, all_bytes, line_of, with_size};
ghost use Rattle.intel_hex.specs.Imported.{word_of, words_from, named, has_words, turn_of, text_of, words_in, stored, verdict, Imports};

use crate::MOST;
use crate::lines::{Line, Span, byte_at, layout_at, line_at};
use text::BadLine;

// How a text goes on after a good line: with the start of the 64 KiB that count from there, or at its end.
#[derive(Clone, Copy, Debug, PartialEq, Eq)]
pub enum Turn {
    On(usize),
    Ended,
}

// Why an import is refused: main is too long, or the text is bad, first at this line from 1.
#[derive(Clone, Copy, Debug, PartialEq, Eq)]
pub enum ImportRefusal {
    MainTooLong,
    BadText(usize),
}

impl From<BadLine> for ImportRefusal {
    ghost use Rattle.std.specs.Prelude.{◌≡◌};
    ghost use Rattle.intel_hex.specs.declared.importing.ImportRefusal.TheVariants.{BadText};

    ghost from_gives = { λ line e. e ≡ BadText line.0 };

    fn from(line: BadLine) -> ImportRefusal {
        ImportRefusal::BadText(line.0)
    }
}

// Whether main has the words of a data record.
fn has_span(room: usize, base: usize, span: Span) -> bool
    ensures { result ≡ has_words room base (Line.Data span) }
{
    let first = span.first;
    let words = span.words;
    words == 0 || base <= room && first <= room - base && words <= room - base - first
}

fn turn_at(room: usize, base: usize, line: Line) -> Option<Turn>
    ensures { result ≡ turn_of room base (Some line) }
{
    match line {
        Line::Data(span) if has_span(room, base, span) => Some(Turn::On(base)),
        Line::Data(_) => None,
        Line::Upper(start) => Some(Turn::On(start)),
        Line::End => Some(Turn::Ended),
    }
}

// How a text goes on after its first line, and the bytes of that line, if it is good.
fn first_turn(text: &[u8], room: usize, base: usize) -> Option<(Turn, usize)>
    ensures { result ≡ with_size text.now (turn_of room base (line_of text.now)) }
{
    let (line, size) = line_at(text)?;
    Some((turn_at(room, base, line)?, size))
}

// The answer for a main of `room` words. The lines are counted beside the rest of the text: only what a line says tells where the next begins, so no
// range counts them.
fn judge(text: &[u8], room: usize) -> Result<(), BadLine>
    ensures { result ≡ verdict (text_of room 0 text.now) }
{
    let mut rest = text;
    let mut base: usize = 0; // the upper address at first
    let mut lines: usize = 0;
    loop {
        match first_turn(rest, room, base) {
            None => return Err(BadLine(lines + 1)),
            Some((Turn::Ended, size)) => {
                if size == rest.len() {
                    return Ok(());
                }
                return Err(BadLine(lines + 2));
            }
            Some((Turn::On(start), size)) => {
                base = start;
                rest = rest.split_at(size).1;
                lines += 1;
            }
        }
    }
}

// The word of the first eight digits.
#[tactic(auto, unfolding(crate::specs::Imported::word_of), using(crate::proofs::Bytes::is_byte))]
fn word_of(text: &[u8]) -> u32
    requires { all_bytes (bytes 4 text.now) ≡ true }
    ensures { result ≡ word_of text.now }
{
    u32::from_be_bytes([
        byte_at(text, 0).unwrap(),
        byte_at(text, 2).unwrap(),
        byte_at(text, 4).unwrap(),
        byte_at(text, 6).unwrap(),
    ])
}

// `count` words of the text go to main from a place on.
fn store_words(main: &mut [u32], place: usize, count: usize, text: &[u8])
    requires { (place + count ≤ length main.old) × (all_bytes (bytes (4 * count) text.now) ≡ true) }
    ensures { main.new ≡ stored (words_from count place text.now) main.old }
{
    for i in 0..count {
        main[place + i] = word_of(text.split_at(8 * i).1);
    }
}

// The words that a line names go to main.
#[tactic(auto, using(crate::proofs::Texts::line_room, crate::proofs::Texts::words_fit, crate::proofs::Texts::data_bytes_there))]
fn store_line(main: &mut [u32], base: usize, line: Line, text: &[u8])
    requires { (line_of text.now ≡ Some line) × (has_words (length main.old) base line ≡ true) }
    ensures { main.new ≡ stored (named base (Some line) text.now) main.old }
{
    if let Line::Data(span) = line {
        if span.words > 0 {
            store_words(main, base + span.first, span.words, text.split_at(9).1);
        }
    }
}

// The words of a text that is not bad go to main. It walks the lines as `judge` does, but sums none again: one walk with a closure would sum each twice.
fn store(main: &mut [u32], text: &[u8])
    requires { verdict (text_of (length main.old) 0 text.now) ≡ Ok tt }
    ensures { main.new ≡ stored (words_in (text_of (length main.old) 0 text.now)) main.old }
{
    let mut rest = text;
    let mut base: usize = 0;
    while let Some((line, size)) = layout_at(rest) {
        match turn_at(main.len(), base, line) {
            None => return,
            Some(Turn::Ended) => return,
            Some(Turn::On(start)) => {
                store_line(main, base, line, rest);
                base = start;
                rest = rest.split_at(size).1;
            }
        }
    }
}

// A text's words go to main, the last of a word named twice, and the other words stay; a refused text writes none. An accepted import
// answers how many bytes of the trail are in use after it: none. After a refused one they are those that were.
#[tactic(auto, unfolding(crate::specs::Imported::import_answer))]
pub fn import_hex(main: &mut [u32], text: &[u8]) -> Result<usize, ImportRefusal>
    ensures { Imports main.old text.now result main.new }
{
    if main.len() > MOST {
        return Err(ImportRefusal::MainTooLong);
    }
    judge(text, main.len())?;
    store(main, text);
    Ok(0)
}
