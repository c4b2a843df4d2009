// Printing (document 01, "The counter program"): the lines of bench. Each is a text that is proved byte for byte, and no `Display`, whose `fmt` could promise
// no bytes to whoever prints by it.
ghost use Rattle.std.specs.Prelude.{◌≡◌, ◌+◌, ◌≤◌, ◌++◌, length};
ghost use Rattle.text.specs.Digits.{hex};
ghost use Rattle.counter.specs.Lines.{flag, name, registers, in_use, run_line, back_line, bad_line};

use machine::{Ending, Machine};
use text::Text;

// A line, longer than any that is printed.
type Line = Text<160>;

// A label, and the last digits of a value in hex.
pub fn push_register<const N: usize>(line: &mut Text<N>, label: &[u8], width: usize, value: u32)
    requires { length line.old + (length label.now + width) ≤ N }
    ensures { line.new ≡ line.old ++ (label.now ++ hex width value) }
{
    line.push_text(label);
    line.push_hex(width, value as usize);
}

fn push_flag(line: &mut Line, label: &[u8], set: bool)
    requires { length line.old + (length label.now + 1) ≤ 160 }
    ensures { line.new ≡ line.old ++ (label.now ++ flag set) }
{
    line.push_text(label);
    line.push(if set { b'1' } else { b'0' });
}

// The registers and flags: 49 bytes.
fn push_registers(line: &mut Line, m: Machine)
    requires { length line.old + 49 ≤ 160 }
    ensures { line.new ≡ line.old ++ registers m }
{
    push_register(line, b" P ", 5, m.p);
    push_register(line, b" A ", 8, m.a);
    push_register(line, b" X ", 8, m.x);
    push_register(line, b" Y ", 8, m.y);
    push_flag(line, b" B ", m.b);
    push_flag(line, b" S ", m.stop);
}

// The ending's name.
fn name(ending: Ending) -> &'static [u8]
    ensures { result.now ≡ name ending }
{
    match ending {
        Ending::Stopped => b"stopped",
        Ending::Budget => b"budget",
        Ending::Unfitted => b"unfitted",
        Ending::Full => b"full",
    }
}

// The bytes in use: 28 bytes at most.
#[tactic(auto, unfolding(crate::specs::Lines::in_use), using(text::proofs::Digits::twenty_digits))]
fn push_in_use(line: &mut Line, used: usize)
    requires { length line.old + 28 ≤ 160 }
    ensures { line.new ≡ line.old ++ in_use used }
{
    line.push_text(b" trail ");
    line.push_decimal(used);
    line.push_text(b"\n");
}

// The line of a run: the steps done, the ending, the machine and the bytes in use.
#[tactic(auto, unfolding(crate::specs::Lines::run_line), using(text::proofs::Digits::twenty_digits, crate::proofs::Lengths::name_length, crate::proofs::Lengths::registers_length))]
pub fn run_line(steps: u32, ending: Ending, m: Machine, used: usize) -> Text<160>
    ensures { result ≡ run_line steps ending m used }
{
    let mut line = Text::new();
    line.push_text(b"steps ");
    line.push_decimal(steps as usize);
    line.push_text(b" ");
    line.push_text(name(ending));
    push_registers(&mut line, m);
    push_in_use(&mut line, used);
    line
}

// The line after taking back: the records taken back, the machine and the bytes in use.
#[tactic(auto, unfolding(crate::specs::Lines::back_line), using(text::proofs::Digits::twenty_digits, crate::proofs::Lengths::registers_length))]
pub fn back_line(count: usize, m: Machine, used: usize) -> Text<160>
    ensures { result ≡ back_line count m used }
{
    let mut line = Text::new();
    line.push_text(b"back ");
    line.push_decimal(count);
    push_registers(&mut line, m);
    push_in_use(&mut line, used);
    line
}

// The line for a bad text.
#[tactic(auto, unfolding(crate::specs::Lines::bad_line), using(text::proofs::Digits::twenty_digits))]
pub fn bad_line(n: usize) -> Text<160>
    ensures { result ≡ bad_line n }
{
    let mut line = Text::new();
    line.push_text(b"line ");
    line.push_decimal(n);
    line.push_text(b" bad\n");
    line
}
