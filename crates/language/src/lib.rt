// The language of the listing (document 02, W1): its names as fixed byte strings, and which fields the line of a word has.
#![tactic(auto)]

pub mod forms;
pub mod names;
