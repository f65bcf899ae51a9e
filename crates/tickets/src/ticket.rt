// An accepted ticket, and what it keeps for as long as it exists.
ghost use Rattle.std.specs.Prelude.{◌≡◌, ◌≤◌, length};
ghost use Rattle.tickets.specs.Kept.{Different, Reduced};

use crate::row::Row;
use contracts::leg::Leg;

// What all legs of a ticket share.
#[derive(Clone, Copy, PartialEq, Eq)]
pub struct Shared {
    pub core: u32,
    pub lot_size: u32,
    pub tick: u32,
}

#[derive(Clone, Copy)]
pub struct Ticket {
    pub(crate) legs: Row<Leg, 4>,
    pub(crate) scale: u32,
    pub(crate) shared: Shared,
    ghost two: { 2 ≤ length legs },
    ghost four: { length legs ≤ 4 },
    ghost different: { Different legs },
    ghost reduced: { Reduced legs },
}

impl Ticket {
    // Two to four, in the order in which they were handed in.
    pub fn legs(&self) -> &[Leg]
        ensures { result.now ≡ self.now.legs }
    {
        self.legs.as_slice()
    }

    pub fn scale(&self) -> u32
        ensures { result ≡ self.now.scale }
    {
        self.scale
    }

    pub fn shared(&self) -> Shared
        ensures { result ≡ self.now.shared }
    {
        self.shared
    }
}
