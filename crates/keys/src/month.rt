// A contract month, which counts by its index: the months since January 2000.
ghost use Rattle.std.specs.Prelude.{◌≡◌, pos, ◌-ℤ◌, MatchOption};
ghost use Rattle.keys.specs.Ranges.{MonthRange, month_index};
ghost use Rattle.std.proofs.Common.{rules, arith};
ghost use Rattle.std.proofs.lemmas.Int.{ints};

use crate::key::{Key, SpacedKey};
use std::fmt;

#[derive(Clone, Copy, PartialEq, Eq, PartialOrd, Ord)]
pub struct Month {
    pub year: u16,
    pub month: u8,
    ghost range: { MonthRange year month },
}

impl Month {
    // The month of a year, or none where either number is out of range.
    pub fn new(year: u32, month: u32) -> Option<Month>
        ensures { MatchOption result (MonthRange year month → ⊥) (λ m. (m.year ≡ year) × (m.month ≡ month)) }
    {
        if (2000..=2099).contains(&year) && (1..=12).contains(&month) {
            Some(Month {
                year: year as u16,
                month: month as u8,
            })
        } else {
            None
        }
    }

    pub fn index(&self) -> u32
        ensures { result ≡ month_index self.now.year self.now.month }
    {
        12 * (self.year as u32 - 2000) + (self.month as u32 - 1)
    }
}

// The year, `-`, and the month by two digits.
impl fmt::Display for Month {
    ghost use Rattle.std.specs.Prelude.{Some};
    ghost use Rattle.keys.specs.Writing.{month_text};

    ghost output = { λ m. Some (month_text m) };

    #[tactic(auto, using(crate::proofs::Digits::padded_month))]
    fn fmt<W: fmt::Write>(&self, f: &mut fmt::Formatter<W>) -> fmt::Result {
        let year = self.year;
        let month = self.month;
        write!(f, "{year}-{month:02}")
    }
}

impl Key for Month {
    ghost use Rattle.keys.specs.Same.{months_same};

    ghost same = { months_same };
}

impl SpacedKey for Month {
    ghost use Rattle.keys.specs.Same.{months_reached, months_ahead, months_behind};

    const GREATEST: i32 = 1_199;

    ghost GREATEST = { pos 1199 };

    ghost gap = { λ x y. pos (month_index y.year y.month) -ℤ pos (month_index x.year x.month) };

    ghost ahead = { months_ahead };

    ghost behind = { months_behind };

    ghost adds = { λ x y z. omega (arith, ints) };

    ghost near = { Prim.search rules };

    ghost far = { Prim.search rules };

    ghost reached = { months_reached };

    ghost small = { Prim.search rules };

    fn distance(&self, other: &Month) -> i32 {
        other.index() as i32 - self.index() as i32
    }
}
