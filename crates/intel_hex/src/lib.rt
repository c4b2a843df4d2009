// Intel HEX (document 02, W4): main exported as an EPROM programmer reads it, and imported from what one writes.
#![tactic(auto)]

mod exporting;
mod importing;
mod lines;

// The most words of main.
const MOST: usize = 0x10_0000;
// 64 KiB, in bytes.
const KIB_64: usize = 0x1_0000;

pub use exporting::{ExportRefusal, export_hex};
pub use importing::{ImportRefusal, import_hex};
