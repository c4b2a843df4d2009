// What `who` reads and prints (document 02, W7): the line with the place that is asked for, and the line that tells how it was hit.
#![tactic(auto)]

mod answers;
mod place;

pub use answers::hit_line;
pub use place::asked_place;
