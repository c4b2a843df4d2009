// The call (document 02, W1): a main store listed into an output. The listing's length is known before the first byte is written.
ghost use Rattle.std.specs.Prelude.{◌≤◌, ◌^◌, ◌≡◌, length};
ghost use Rattle.text.specs.Placed.{Placed};
ghost use Rattle.language.specs.Line.{line};
ghost use Rattle.listing.specs.Listing.{listing, Lists};

use crate::line::line_of;
use instruction::ClassTable;
use text::{Text, put_text};

// Why a listing was refused, by the paper's numbers. (An export's refusals are as many and have the same numbers, and are a type of their own: each call
// says which come of it, and no other does.)
#[derive(Clone, Copy, Debug, PartialEq, Eq)]
pub enum ListRefusal {
    StoreTooLong = 2,
    OutputTooShort = 9,
}

// The most words of a store.
const MOST: usize = 0x10_0000;

// The line of a word at an address, whose last five digits it tells.
pub fn line_of_word(address: usize, w: u32) -> Text<24>
    ensures { result ≡ line address w }
{
    line_of(&ClassTable::new(), address, w)
}

#[tactic(auto, using(crate::proofs::Lengths::listing_at_most, crate::proofs::Lines::next_within, crate::proofs::Lines::next_length), unfolding(crate::specs::Listing::lines))]
fn listing_length(table: &ClassTable, main: &[u32]) -> usize
    requires { length main.now ≤ 2 ^ 20 }
    ensures { result ≡ length (listing main.now) }
{
    let mut total: usize = 0;
    for (address, &w) in main.iter().enumerate() {
        total += line_of(table, address, w).len();
    }
    total
}

#[tactic(auto, using(text::proofs::Placing::put_nothing, crate::proofs::Lines::next_within), unfolding(crate::specs::Listing::lines))]
fn put_listing(table: &ClassTable, main: &[u32], out: &mut [u8])
    requires { length (listing main.now) ≤ length out.old }
    ensures { Placed 0 (listing main.now) out.old (length (listing main.now)) out.new }
{
    let mut next: usize = 0;
    for (address, &w) in main.iter().enumerate() {
        next = put_text(out, next, line_of(table, address, w).as_bytes());
    }
}

// Lists main from address 0 into the output, and answers how many bytes the listing has. A refused call writes no byte, and bytes past the listing stay.
#[tactic(auto, using(crate::proofs::Answers::store_too_long))]
pub fn list(main: &[u32], out: &mut [u8]) -> Result<usize, ListRefusal>
    ensures { Lists main.now out.old result out.new }
{
    if main.len() > MOST {
        return Err(ListRefusal::StoreTooLong);
    }
    let table = ClassTable::new();
    let length = listing_length(&table, main);
    if length > out.len() {
        return Err(ListRefusal::OutputTooShort);
    }
    put_listing(&table, main, out);
    Ok(length)
}
