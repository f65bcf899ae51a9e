// The two directions in which an entry may fit: BUY takes the legs as they are, SELL takes each from the other side.
ghost use Rattle.std.specs.Prelude.{◌≡◌};
ghost use Rattle.catalogue.specs.Rows.{opposite as other_side, faced, direction_number};
ghost use Rattle.catalogue.specs.Search.{directions};

use contracts::leg::Leg;
use contracts::plain::Side;

#[derive(Clone, Copy, PartialEq, Eq)]
pub enum Direction {
    Buy = 1,
    Sell = 2,
}

// By name, since `!side` would say less.
fn opposite(side: Side) -> Side
    ensures { result ≡ other_side side }
{
    match side {
        Side::Bought => Side::Sold,
        Side::Sold => Side::Bought,
    }
}

impl Direction {
    // In the order in which they are tried.
    pub(crate) fn both() -> [Direction; 2]
        ensures { result ≡ directions }
    {
        [Direction::Buy, Direction::Sell]
    }

    // BUY is 1, SELL is 2: an analysis answers plain numbers.
    pub fn number(self) -> u8
        ensures { result ≡ direction_number self }
    {
        self as u8
    }

    // A leg as a direction has it.
    pub fn face(self, leg: Leg) -> Leg
        ensures { result ≡ faced self leg }
    {
        let mut turned = leg;
        self.turn(&mut turned);
        turned
    }

    // The same in place: a leg made anew is copied part by part, which took the search twice the time.
    pub(crate) fn turn(self, leg: &mut Leg)
        ensures { leg.new ≡ faced self leg.old }
    {
        match self {
            Direction::Buy => {}
            Direction::Sell => leg.side = opposite(leg.side),
        }
    }
}
