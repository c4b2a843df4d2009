// Views of the stores (document 01, "The other operations").
ghost use Rattle.std.specs.Prelude.{◌≡◌, length};
ghost use Rattle.viper.specs.Views.{stretch, stretch_fitted, viewed, view_fitted};

use machine::Place;

// Whether n words from an address are wholly fitted in a store of this many words.
fn within(words: usize, address: u32, n: usize) -> bool
    ensures { result ≡ stretch_fitted words address n }
{
    match (address as usize).checked_add(n) {
        Some(end) => end <= words,
        None => false,
    }
}

// Whether n words from a place are wholly fitted; for n = 0, whether its address is at most the store's length.
pub fn is_fitted(main: &[u32], ports: &[u32], place: Place, n: usize) -> bool
    ensures { result ≡ view_fitted (length main.now) (length ports.now) place n }
{
    match place {
        Place::Main(a) => within(main.len(), a.0, n),
        Place::Port(a) => within(ports.len(), a.0, n),
    }
}

// The stretch of n words from an address, or the empty stretch at the store's end: a part of the store either way.
fn part_of(store: &[u32], address: u32, n: usize) -> &[u32]
    ensures { result.now ≡ stretch store.now address n }
{
    let start = address as usize;
    let empty = &store[store.len()..];
    match start.checked_add(n) {
        Some(end) => store.get(start..end).unwrap_or(empty),
        None => empty,
    }
}

// The n words from a place, as a part of the store they stand in; the empty stretch if they are not wholly fitted.
pub fn view<'a>(main: &'a [u32], ports: &'a [u32], place: Place, n: usize) -> &'a [u32]
    ensures { result.now ≡ viewed main.now ports.now place n }
{
    match place {
        Place::Main(a) => part_of(main, a.0, n),
        Place::Port(a) => part_of(ports, a.0, n),
    }
}
