// Reading a routine (document 01, "The counter program"): lines of eight hex digits and a line feed, loaded from main address 0.
ghost use Rattle.std.specs.Prelude.{◌≡◌, ◌≤◌, length, Ok};
ghost use Rattle.counter.specs.Routine.{line_after, routine_of, answer, main_after, Loads};

use text::{BadLine, digit_value};

// The digits and the line feed of a line.
const LINE: usize = 9;

// The number in the line of so many hex digits that the text begins with.
pub fn read_line(text: &[u8], width: usize) -> Option<u32>
    requires { width ≤ 8 }
    ensures { result ≡ line_after width 0 text.now }
{
    let digits = text.get(..width)?;
    let mut word: u32 = 0;
    for digit in digits {
        word = word * 16 + digit_value(*digit)?;
    }
    match text.get(width) {
        Some(b'\n') => Some(word),
        _ => None,
    }
}

// How many words the text has for a main of `room` words.
fn judge(text: &[u8], room: usize) -> Result<usize, BadLine>
    ensures { result ≡ answer (routine_of room text.now) }
{
    let lines = text.len().div_ceil(LINE);
    for done in 0..lines {
        let number = done + 1;
        if done == room {
            return Err(BadLine(number));
        }
        let Some(_) = read_line(&text[LINE * done..], 8) else {
            return Err(BadLine(number));
        };
    }
    Ok(lines)
}

// The words of a text that is not bad, of `count` lines, go to main.
fn store(text: &[u8], main: &mut [u32], count: usize)
    requires { answer (routine_of (length main.old) text.now) ≡ Ok count }
    ensures { main.new ≡ main_after (routine_of (length main.old) text.now) main.old }
{
    for done in 0..count {
        let Some(word) = read_line(&text[LINE * done..], 8) else {
            return;
        };
        main[done] = word;
    }
}

// A routine's words go to main from address 0, and the other words stay; a bad text writes no word. Answers how many words main now holds from address 0 on.
pub fn load(text: &[u8], main: &mut [u32]) -> Result<usize, BadLine>
    ensures { Loads text.now main.old result main.new }
{
    let count = judge(text, main.len())?;
    store(text, main, count);
    Ok(count)
}
