// The scale of a ticket: the greatest common divisor of the lots.
ghost use Rattle.std.specs.Int.{IsGcd};
ghost use Rattle.tickets.specs.Scales.{Scale};

use contracts::plain::PlainLeg;

// Euclid's loop counts nothing that an iterator could count.
fn gcd(a: u32, b: u32) -> u32
    ensures { IsGcd a b result }
{
    let mut x = a;
    let mut y = b;
    while y != 0 {
        (x, y) = (y, x % y);
    }
    x
}

pub(crate) fn scale_of(legs: &[PlainLeg]) -> u32
    ensures { Scale legs.now result }
{
    legs.iter().fold(0, |common, leg| gcd(common, leg.lots))
}
