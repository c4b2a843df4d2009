// What bench reads and prints (document 01, "The counter program"): a routine from lines of hex, and the lines that tell what came of it.
#![tactic(auto)]

mod lines;
mod routine;

pub use lines::{back_line, bad_line, push_register, run_line};
pub use routine::{load, read_line};
pub use text::BadLine;
