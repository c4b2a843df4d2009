// The calls for C on texts, as include/viper.h declares them: main listed (document 02, W1), imported from Intel HEX and exported to it (W4).
// None has a `requires`: what C lends is refused or obeyed as the document says.
ghost use Rattle.std.specs.Prelude.{◌≡◌, List, ℕ};
ghost use Rattle.surface.specs.Texts.{listed, imported, exported};

use surface::texts::{export_number, hand_imported, list_number};

// Lists main from address 0, a line a word.
#[unsafe(no_mangle)]
pub extern "C" fn viper_list(main: &[u32], out: &mut [u8]) -> u64
    ensures { ◌≡◌ {A = ℕ × List ℕ} (result, out.new) (listed main.now out.old) }
{
    list_number(listing::list(main, out))
}

// Reads an Intel HEX text into main. After an accepted one no byte of the trail is in use.
#[unsafe(no_mangle)]
pub extern "C" fn viper_hex_import(main: &mut [u32], used: &mut usize, text: &[u8]) -> u64
    ensures { ◌≡◌ {A = ℕ × List ℕ × ℕ} (result, main.new, used.new) (imported main.old used.old text.now) }
{
    hand_imported(intel_hex::import_hex(main, text), used)
}

// Writes main as an Intel HEX text.
#[unsafe(no_mangle)]
pub extern "C" fn viper_hex_export(main: &[u32], out: &mut [u8]) -> u64
    ensures { ◌≡◌ {A = ℕ × List ℕ} (result, out.new) (exported main.now out.old) }
{
    export_number(intel_hex::export_hex(main, out))
}
