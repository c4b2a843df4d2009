// A text made from its start, of at most N bytes.
ghost use Rattle.std.specs.Prelude.{◌≡◌, ℕ, List, ◌+◌, ◌≤◌, ◌<◌, [], ◌∷◌, ◌++◌, length, take};
ghost use Rattle.text.specs.Digits.{digit, decimal, hex};

use std::marker::Model;

// A text of at most N bytes, to which more is added at the end.
#[derive(Drop)]
pub struct Text<const N: usize> {
    bytes: [u8; N],
    used: usize,
}

// Clauses see the bytes so far.
impl<const N: usize> Model for Text<N> {
    ghost Value = { List ℕ };

    ghost view = { λ t. take t.used t.bytes };

    ghost invariant = { λ t. t.used ≤ N };
}

impl<const N: usize> Text<N> {
    pub fn new() -> Self
        ensures { result ≡ [] }
    {
        Text {
            bytes: [0; N],
            used: 0,
        }
    }

    pub fn len(&self) -> usize
        ensures { result ≡ length self.now }
    {
        self.as_bytes().len()
    }

    pub fn as_bytes(&self) -> &[u8]
        ensures { result.now ≡ self.now }
    {
        &self.bytes[..self.used]
    }

    pub fn push(&mut self, byte: u8)
        requires { length self.old + 1 ≤ N }
        ensures { self.new ≡ self.old ++ byte ∷ [] }
    {
        self.bytes[self.used] = byte;
        self.used += 1;
    }

    pub fn push_text(&mut self, text: &[u8])
        requires { length self.old + length text.now ≤ N }
        ensures { self.new ≡ self.old ++ text.now }
    {
        for (i, &byte) in text.iter().enumerate() {
            self.bytes[self.used + i] = byte;
        }
        self.used += text.len();
    }

    // The number in decimal, with no leading zero.
    pub fn push_decimal(&mut self, n: usize)
        requires { length self.old + length (decimal n) ≤ N }
        ensures { self.new ≡ self.old ++ decimal n }
    {
        self.push_text(decimal_digits(n).as_bytes());
    }

    // The last digits of a number in hex, as many as the width says.
    pub fn push_hex(&mut self, width: usize, n: usize)
        requires { length self.old + width ≤ N }
        ensures { self.new ≡ self.old ++ hex width n }
    {
        let next = self.used + width;
        let bytes = &mut self.bytes[..];
        fill_hex(&mut bytes[self.used..next], n);
        self.used = next;
    }
}

// The digit of a value below 16. (No `TryFrom`: that it is below 16 is its callers' to show.)
fn digit_of(value: usize) -> u8
    requires { value < 16 }
    ensures { result ≡ digit value }
{
    if value < 10 {
        return b'0' + value as u8;
    }
    b'A' + (value - 10) as u8
}

#[tactic(auto, using(crate::proofs::Digits::decimal_last, crate::proofs::Digits::decimal_more))]
fn decimal_digits(n: usize) -> Text<20>
    ensures { result ≡ decimal n }
{
    if n < 10 {
        let mut digits = Text::new();
        digits.push(digit_of(n));
        return digits;
    }
    let mut digits = decimal_digits(n / 10);
    digits.push(digit_of(n % 10));
    digits
}

// The bytes become the last digits of the number in hex.
#[tactic(auto, unfolding(crate::specs::Digits::hex), using(crate::proofs::Digits::hex_more))]
fn fill_hex(bytes: &mut [u8], n: usize)
    ensures { bytes.new ≡ hex (length bytes.old) n }
{
    if let Some((last, front)) = bytes.split_last_mut() {
        *last = digit_of(n % 16);
        fill_hex(front, n / 16);
    }
}
