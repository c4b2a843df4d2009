// The number that a word's place has in a record, and the place of a number (document 01, "The trail").
ghost use Rattle.std.specs.Prelude.{◌≡◌, ◌^◌, ◌<◌};
ghost use Rattle.machine.specs.Held.{where_of};
ghost use Rattle.trail.specs.Records.{place_number, where_of_number};

use crate::FIRST_PORT;
use machine::{MainAddress, Place, PortNumber};

// The number of a place: its address, plus 1,048,576 for ports. (No `From`: it has a `requires`.)
pub fn place_number(place: Place) -> u32
    requires { (where_of place).1 < 2 ^ 20 }
    ensures { result ≡ place_number place }
{
    match place {
        Place::Main(n) => n.0,
        Place::Port(n) => n.0 + FIRST_PORT,
    }
}

// The place of a number: a main address below 1,048,576, and a port from there on.
pub fn place_of_number(number: u32) -> Place
    ensures { where_of result ≡ where_of_number number }
{
    if number < FIRST_PORT {
        Place::Main(MainAddress(number))
    } else {
        Place::Port(PortNumber(number - FIRST_PORT))
    }
}
