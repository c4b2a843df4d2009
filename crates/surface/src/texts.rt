// Texts, for C: the numbers answered for a listing (document 02, W1) and for Intel HEX (W4). They differ in which half holds what, as include/viper.h
// says, so each has its function; and they are functions and no `From`, since their types are std's.
ghost use Rattle.std.specs.Prelude.{◌<◌, ◌^◌, ◌≡◌};
ghost use Rattle.intel_hex.specs.Imported.{used_after};
ghost use Rattle.surface.specs.Texts.{list_number, import_number, export_number, line_number, Countable};

use intel_hex::{ExportRefusal, ImportRefusal};
use listing::ListRefusal;

// The bytes written in the low half; or the refusal in the high half.
pub fn list_number(answer: Result<usize, ListRefusal>) -> u64
    ensures { result ≡ list_number answer }
{
    match answer {
        Ok(n) => n as u64,
        Err(refusal) => refusal as u64 * 0x1_0000_0000,
    }
}

// A line past 2^32 - 1 counts as that.
fn line_number(n: usize) -> u64
    ensures { result ≡ line_number n }
{
    n.min(0xFFFF_FFFF) as u64
}

// The refusal, or 0, in the low half; the first bad line in the high half. An accepted import writes the count of trail bytes in use, and a refused
// one does not.
pub fn hand_imported(answer: Result<usize, ImportRefusal>, used: &mut usize) -> u64
    ensures { (result ≡ import_number answer) × (used.new ≡ used_after answer used.old) }
{
    match answer {
        Ok(count) => {
            *used = count;
            0
        }
        Err(ImportRefusal::MainTooLong) => 2,
        Err(ImportRefusal::BadText(n)) => 12 + line_number(n) * 0x1_0000_0000,
    }
}

// The refusal in the low half; or the bytes written in the high half.
pub fn export_number(answer: Result<usize, ExportRefusal>) -> u64
    requires { Countable answer }
    ensures { result ≡ export_number answer }
{
    match answer {
        Ok(n) => n as u64 * 0x1_0000_0000,
        Err(refusal) => refusal as u64,
    }
}
