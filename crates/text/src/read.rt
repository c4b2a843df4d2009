// Hex digits read, and the first line of a text that cannot be read.
ghost use Rattle.std.specs.Prelude.{◌≡◌, ◌<◌, IfSome, IfNone};
ghost use Rattle.text.specs.Digits.{digit_value};

// The first bad line of a text, from 1.
#[derive(Clone, Copy, Debug, PartialEq, Eq)]
pub struct BadLine(pub usize);

// The value of a hex digit, if the byte is one.
#[tactic(auto, unfolding(crate::specs::Digits::digit_value))]
pub fn digit_value(byte: u8) -> Option<u32>
    ensures worth { IfSome result (λ value. (value ≡ digit_value byte) × (value < 16)) }
    ensures none { IfNone result (digit_value byte ≡ 16) }
{
    match byte {
        b'0'..=b'9' => Some((byte - b'0') as u32),
        b'A'..=b'F' => Some((byte - b'A') as u32 + 10),
        _ => None,
    }
}
