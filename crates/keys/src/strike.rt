// A strike, in hundredths.
ghost use Rattle.std.specs.Prelude.{◌≡◌, pos, ◌-ℤ◌, MatchOption};
ghost use Rattle.keys.specs.Ranges.{StrikeRange};
ghost use Rattle.std.proofs.Common.{rules};

use crate::key::{Key, SpacedKey};
use std::fmt;

#[derive(Clone, Copy, PartialEq, Eq, PartialOrd, Ord)]
pub struct Strike {
    pub hundredths: u32,
    ghost range: { StrikeRange hundredths },
}

impl Strike {
    // The strike of so many hundredths, or none where the number is out of range.
    pub fn new(hundredths: u32) -> Option<Strike>
        ensures { MatchOption result (StrikeRange hundredths → ⊥) (λ s. s.hundredths ≡ hundredths) }
    {
        if (1..=99_999_999).contains(&hundredths) {
            Some(Strike { hundredths })
        } else {
            None
        }
    }
}

impl fmt::Display for Strike {
    ghost use Rattle.std.specs.Prelude.{Some};
    ghost use Rattle.keys.specs.Writing.{strike_text};

    ghost output = { λ s. Some (strike_text s) };

    fn fmt<W: fmt::Write>(&self, f: &mut fmt::Formatter<W>) -> fmt::Result {
        let hundredths = self.hundredths;
        write!(f, "{hundredths}")
    }
}

impl Key for Strike {
    ghost use Rattle.keys.specs.Same.{strikes_same};

    ghost same = { strikes_same };
}

impl SpacedKey for Strike {
    ghost use Rattle.keys.specs.Same.{strikes_reached};

    const GREATEST: i32 = 99_999_998;

    ghost GREATEST = { pos 99999998 };

    ghost gap = { λ x y. pos y.hundredths -ℤ pos x.hundredths };

    ghost ahead = { Prim.search rules };

    ghost behind = { Prim.search rules };

    ghost adds = { Prim.search rules };

    ghost near = { Prim.search rules };

    ghost far = { Prim.search rules };

    ghost reached = { strikes_reached };

    ghost small = { Prim.search rules };

    fn distance(&self, other: &Strike) -> i32 {
        other.hundredths as i32 - self.hundredths as i32
    }
}
