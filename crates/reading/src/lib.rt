// The trail read back from the end of the bytes in use (document 01, "The trail"). No trail byte is written here.
#![tactic(auto)]

mod from_end;
mod numbers;
mod reader;
mod short;

pub use from_end::{newest, read_record};
pub use numbers::read_number;
pub use short::{Marked, MarkedRecord, read_short};
