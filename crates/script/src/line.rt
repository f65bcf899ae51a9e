// What a line of the script says.
ghost use Rattle.std.specs.Prelude.{◌≡◌};
ghost use Rattle.script.specs.Lines.{trouble};

use contracts::plain::{PlainLeg, Reference};
use notation::part::LegPart;
use tickets::row::Row;

// What is wrong with a word.
#[derive(Clone, Copy, PartialEq, Eq)]
pub enum What {
    UnknownCall,
    MissingWord,
    SurplusWord,
    Minute,
    Part(LegPart),
}

impl What {
    // The trouble with a word.
    pub(crate) fn at(self, word: usize) -> Trouble
        ensures { result ≡ trouble word self }
    {
        Trouble { word, what: self }
    }
}

// The words of a line are numbered from 1.
#[derive(Clone, Copy, PartialEq, Eq)]
pub struct Trouble {
    pub word: usize,
    pub what: What,
}

// Of a ticket, the first five legs are enough: more than four are refused whatever they are.
#[derive(Clone, Copy)]
pub(crate) enum Line {
    Market(Reference),
    Ticket { minute: u32, legs: Row<PlainLeg, 5> },
}
