// The calls for C on trails, as include/viper.h declares them: trails moved between the two forms of records (document 02, W12), and the
// record that holds a word sought (W7). None has a `requires`: what C lends is refused or obeyed as the document says.
ghost use Rattle.std.specs.Prelude.{◌≡◌, List, ℕ, length, true, false};
ghost use Rattle.surface.specs.Trails.{place_numbered, moved, found};

use surface::trails::{hand_found, hand_moved, place_of};

// A whole trail from the old form to the new one: each record gets the kind 0.
#[unsafe(no_mangle)]
pub extern "C" fn viper_trail_to_new(trail: &[u8], out: &mut [u8], out_used: &mut usize) -> u32
    ensures { ◌≡◌ {A = ℕ × List ℕ × ℕ} (result, out.new, out_used.new) (moved true trail.now out.old out_used.old) }
{
    hand_moved(moving::to_new(trail, out), out_used)
}

// A whole trail from the new form to the old one: the kinds are dropped.
#[unsafe(no_mangle)]
pub extern "C" fn viper_trail_to_old(trail: &[u8], out: &mut [u8], out_used: &mut usize) -> u32
    ensures { ◌≡◌ {A = ℕ × List ℕ × ℕ} (result, out.new, out_used.new) (moved false trail.now out.old out_used.old) }
{
    hand_moved(moving::to_old(trail, out), out_used)
}

// The newest record that holds a word, and how many operations back it is. Both are always written.
#[unsafe(no_mangle)]
pub extern "C" fn viper_find(
    main: &[u32],
    ports: &[u32],
    trail: &[u8],
    used: usize,
    store: u32,
    address: u32,
    back: &mut usize,
    record: &mut [u32; 8],
) -> u32
    ensures { ◌≡◌ {A = ℕ × ℕ × List ℕ} (result, back.new, «record».new) (found (length main.now) (length ports.now) trail.now used (place_numbered store address)) }
{
    let place = place_of(store, address);
    let answer = seeking::find(main.len(), ports.len(), trail, used, place);
    hand_found(answer, back, record)
}
