// Text in bytes: texts made of fixed texts and numbers, texts put at a place of a buffer, and digits read.
#![tactic(auto)]

mod put;
mod read;
mod texts;

pub use put::put_text;
pub use read::{BadLine, digit_value};
pub use texts::Text;
