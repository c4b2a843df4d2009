// The types that the whole bench shares (document 01, "What the bench holds").
#![tactic(auto)]

// The address of a word of the main store.
#[derive(Clone, Copy, Debug, PartialEq, Eq)]
pub struct MainAddress(pub u32);

// The number of a port.
#[derive(Clone, Copy, Debug, PartialEq, Eq)]
pub struct PortNumber(pub u32);

// Where a word stands. A main address and a port number are kept apart, so that a port is never read at a main address.
#[derive(Clone, Copy, Debug, PartialEq, Eq)]
pub enum Place {
    Main(MainAddress),
    Port(PortNumber),
}

// The machine without its stores: A, X, Y, P and the flags B and STOP. The default is the cleared machine: zeros, and the flags down.
#[derive(Clone, Copy, Debug, Default, PartialEq, Eq)]
pub struct Machine {
    pub a: u32,
    pub x: u32,
    pub y: u32,
    pub p: u32,
    pub b: bool,
    pub stop: bool,
}

// How a run that was not refused ended (document 01, "Numbers the counter sees").
#[derive(Clone, Copy, Debug, PartialEq, Eq)]
pub enum Ending {
    Stopped = 0,
    Budget = 1,
    Unfitted = 2,
    Full = 3,
}
