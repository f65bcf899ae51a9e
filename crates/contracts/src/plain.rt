// A leg as it is handed in: plain numbers of any value. Types of their own, and not the contract's over other numbers, since this is the form that is to cross to C.
use crate::contract::Right;

#[derive(Clone, Copy, PartialEq, Eq)]
pub enum Side {
    Bought,
    Sold,
}

#[derive(Clone, Copy, PartialEq, Eq)]
pub enum State {
    Trading,
    Auction,
    Suspended,
    Forbidden,
}

#[derive(Clone, Copy, PartialEq, Eq)]
pub struct PlainRoot {
    pub first: u8,
    pub second: u8,
    pub third: u8,
}

#[derive(Clone, Copy, PartialEq, Eq)]
pub struct PlainMonth {
    pub year: u32,
    pub month: u32,
}

#[derive(Clone, Copy, PartialEq, Eq)]
pub enum PlainUnderlying {
    Spot,
    Future(PlainMonth),
}

#[derive(Clone, Copy, PartialEq, Eq)]
pub enum PlainContract {
    Future {
        root: PlainRoot,
        month: PlainMonth,
    },
    Option {
        right: Right,
        root: PlainRoot,
        month: PlainMonth,
        strike: u32,
        underlying: PlainUnderlying,
    },
}

// The reference data of an instrument: its trading core, lot size, tick and state, and the minute of the day at which its session ends.
#[derive(Clone, Copy, PartialEq, Eq)]
pub struct Reference {
    pub core: u32,
    pub lot_size: u32,
    pub tick: u32,
    pub state: State,
    pub session_end: u32,
}

#[derive(Clone, Copy, PartialEq, Eq)]
pub struct PlainLeg {
    pub contract: PlainContract,
    pub side: Side,
    pub lots: u32,
    pub reference: Reference,
}
