// Trails moved (document 02, W12) and a word sought (W7), for C: the numbers answered, and what is written where it lent room for them.
ghost use Rattle.std.specs.Prelude.{◌≡◌, List, ℕ};
ghost use Rattle.surface.specs.Trails.{place_numbered, moved_number, moved_count, found_number, found_back, found_record};

use machine::{MainAddress, Place, PortNumber};
use moving::MoveRefusal;
use seeking::{Hit, SeekRefusal};

// Store 0 is main, any other the ports. (A step tells the store by a word's class, and a record by the place's number: three numbers of three meanings.)
pub fn place_of(store: u32, address: u32) -> Place
    ensures { result ≡ place_numbered store address }
{
    if store == 0 {
        Place::Main(MainAddress(address))
    } else {
        Place::Port(PortNumber(address))
    }
}

// An accepted move writes its count, and a refused one does not.
pub fn hand_moved(answer: Result<usize, MoveRefusal>, out_used: &mut usize) -> u32
    ensures { (result ≡ moved_number answer) × (out_used.new ≡ moved_count answer out_used.old) }
{
    match answer {
        Ok(n) => {
            *out_used = n;
            0
        }
        Err(refusal) => refusal as u32,
    }
}

// Where no record is found both are 0.
pub fn hand_found(
    answer: Result<Option<Hit>, SeekRefusal>,
    back: &mut usize,
    record: &mut [u32; 8],
) -> u32
    ensures { (result ≡ found_number answer) × (back.new ≡ found_back answer) × («record».new ≡ found_record answer) }
{
    *back = 0;
    *record = [0; 8];
    match answer {
        Ok(Some(hit)) => {
            let o = hit.values;
            *back = hit.back;
            *record = [o.kind as u32, o.marks, o.p, o.a, o.x, o.y, o.place, o.value];
            0
        }
        Ok(None) => 0,
        Err(refusal) => refusal as u32,
    }
}
