// The line of a hit.
ghost use Rattle.std.specs.Prelude.{◌≡◌};
ghost use Rattle.asking.specs.Asking.{hit_line};

use counter::push_register;
use text::Text;

// How many operations back, P, and the word's value before and now.
#[tactic(auto, unfolding(crate::specs::Asking::hit_line), using(text::proofs::Digits::twenty_digits, text::proofs::Digits::hex_length))]
pub fn hit_line(back: usize, p: u32, old: u32, new: u32) -> Text<80>
    ensures { result ≡ hit_line back p old new }
{
    let mut line = Text::new();
    line.push_text(b"back ");
    line.push_decimal(back);
    push_register(&mut line, b" P ", 5, p);
    push_register(&mut line, b" old ", 8, old);
    push_register(&mut line, b" new ", 8, new);
    line.push_text(b"\n");
    line
}
