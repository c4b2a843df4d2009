// One step of the machine: the phases and the finish (document 01, "Order in a step"), with P and the stores known to be lawful and STOP clear.
// The crate viper judges that first; nobody else is meant to call this one.
#![tactic(auto)]

pub mod finish;
pub mod phases;
