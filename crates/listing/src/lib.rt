// The listing (document 02, W1): a main store as lines, one a word, with names instead of digits.
#![tactic(auto)]

mod line;
mod store;

pub use store::{ListRefusal, line_of_word, list};
pub use text::Text;
