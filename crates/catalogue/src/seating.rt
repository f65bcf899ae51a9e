// Seatings: which leg plays which role, all of them in rising order.
ghost use Rattle.std.specs.Prelude.{◌≡◌, ◌≤◌};
ghost use Rattle.tickets.specs.Refused.{legs_of};
ghost use Rattle.catalogue.specs.Rows.{row as row_of};
ghost use Rattle.catalogue.specs.Seatings.{seating_table, Complete, unpadded, Seats};

use crate::direction::Direction;
use contracts::leg::Leg;
use tickets::row::{Blank, Row};
use tickets::ticket::Ticket;

// Four leg numbers each, as an analysis writes a seating into a lent place.
static PAIRS: [[u8; 4]; 2] = [[1, 2, 0, 0], [2, 1, 0, 0]];

static TRIPLES: [[u8; 4]; 6] = [
    [1, 2, 3, 0],
    [1, 3, 2, 0],
    [2, 1, 3, 0],
    [2, 3, 1, 0],
    [3, 1, 2, 0],
    [3, 2, 1, 0],
];

static FOURS: [[u8; 4]; 24] = [
    [1, 2, 3, 4],
    [1, 2, 4, 3],
    [1, 3, 2, 4],
    [1, 3, 4, 2],
    [1, 4, 2, 3],
    [1, 4, 3, 2],
    [2, 1, 3, 4],
    [2, 1, 4, 3],
    [2, 3, 1, 4],
    [2, 3, 4, 1],
    [2, 4, 1, 3],
    [2, 4, 3, 1],
    [3, 1, 2, 4],
    [3, 1, 4, 2],
    [3, 2, 1, 4],
    [3, 2, 4, 1],
    [3, 4, 1, 2],
    [3, 4, 2, 1],
    [4, 1, 2, 3],
    [4, 1, 3, 2],
    [4, 2, 1, 3],
    [4, 2, 3, 1],
    [4, 3, 1, 2],
    [4, 3, 2, 1],
];

// The seatings of 2 to 4 legs, each with 0 past its roles; of another number of legs there are none.
#[tactic(auto, using(crate::proofs::Perms::complete), unfolding(crate::specs::Seatings::seatings))]
pub fn seatings_of(legs: usize) -> &'static [[u8; 4]]
    ensures table { result.now ≡ seating_table legs }
    ensures whole { 2 ≤ legs → legs ≤ 4 → Complete legs }
{
    match legs {
        2 => &PAIRS,
        3 => &TRIPLES,
        4 => &FOURS,
        _ => &[],
    }
}

// A ticket's legs in the order of the roles, each as the direction has it.
pub(crate) fn seated(ticket: &Ticket, direction: Direction, seating: &[u8; 4]) -> Row<Leg, 4>
    requires { Seats ticket.now seating.now }
    ensures { result ≡ row_of direction (legs_of ticket.now) (unpadded ticket.now seating.now) }
{
    let legs = ticket.legs();
    let mut row = [Leg::blank(); 4];
    for (role, number) in seating[..legs.len()].iter().enumerate() {
        let mut leg = legs[*number as usize - 1];
        direction.turn(&mut leg);
        row[role] = leg;
    }
    Row::of(row, legs.len())
}
