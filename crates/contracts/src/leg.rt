// A leg as a ticket keeps it: what a catalogue may look at.
use crate::contract::Contract;
use crate::plain::Side;

#[derive(Clone, Copy, PartialEq, Eq)]
pub struct Leg {
    pub contract: Contract,
    pub side: Side,
    pub ratio: u32,
}
