// The first line of the text: `main` or `port`, a blank, an address in five hex digits and a line feed.
ghost use Rattle.std.specs.Prelude.{◌≡◌};
ghost use Rattle.asking.specs.Asking.{asked};

use counter::read_line;
use machine::{MainAddress, Place, PortNumber};

// The place asked for, if the text begins with such a line.
pub fn asked_place(text: &[u8]) -> Option<Place>
    ensures { result ≡ asked text.now }
{
    if let Some(address) = text.strip_prefix(b"main ") {
        return Some(Place::Main(MainAddress(read_line(address, 5)?)));
    }
    let number = text.strip_prefix(b"port ")?;
    Some(Place::Port(PortNumber(read_line(number, 5)?)))
}
