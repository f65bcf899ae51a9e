// Why a ticket is refused.
ghost use Rattle.std.specs.Prelude.{◌≡◌};
ghost use Rattle.tickets.specs.Refusals.{ticket_fault};

use crate::fault::{Fault, Layer};

// The lines of the list of refusals that speak of one leg, each by its number there.
#[derive(Clone, Copy, PartialEq, Eq)]
pub enum LegLine {
    Range = 6,
    Repeat = 7,
    Core = 8,
    LotOrTick = 9,
    Halted = 10,
    Late = 11,
}

impl LegLine {
    // In the order of the list.
    pub const ALL: [LegLine; 6] = [
        LegLine::Range,
        LegLine::Repeat,
        LegLine::Core,
        LegLine::LotOrTick,
        LegLine::Halted,
        LegLine::Late,
    ];
}

// Legs are numbered from 1.
#[derive(Clone, Copy, PartialEq, Eq)]
pub enum TicketRefusal {
    Minute,
    LegCount,
    Leg { line: LegLine, leg: usize },
}

// By hand: a derive has no `from_gives`, by which clauses name the fault that a `?` makes.
impl From<TicketRefusal> for Fault {
    ghost from_gives = { λ e f. f ≡ ticket_fault e };

    fn from(e: TicketRefusal) -> Fault {
        let (number, place) = match e {
            TicketRefusal::Minute => (4, 0),
            TicketRefusal::LegCount => (5, 0),
            TicketRefusal::Leg { line, leg } => (line as u8, leg),
        };
        Fault {
            number,
            layer: Layer::Ticket,
            place,
        }
    }
}
