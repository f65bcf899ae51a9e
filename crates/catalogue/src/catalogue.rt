// A catalogue by what it means: a list of at most 64 entries, which are numbered from 1.
ghost use Rattle.std.specs.Prelude.{◌≡◌, ◌≤◌, List, length};
ghost use Rattle.std.specs.List.{AllByRecursion};
ghost use Rattle.catalogue.specs.Entries.{Entry, Typed, Sized, numbered, suits};

use crate::strategy::StrategyType;
use contracts::leg::Leg;

pub trait Catalogue {
    ghost entries: { Self → List Entry };

    fn count(&self) -> usize
        ensures { result ≡ length (entries self.now) };

    // `--` for 0 and beyond the count: every question has an answer.
    fn type_of(&self, entry: usize) -> StrategyType
        ensures { result ≡ (numbered (entries self.now) entry).type };

    // 0 for 0 and beyond the count.
    fn role_count(&self, entry: usize) -> usize
        ensures { result ≡ (numbered (entries self.now) entry).roles };

    // Whether an entry fits a row of legs, one for each role. A row of another length does not fit.
    fn fits(&self, entry: usize, row: &[Leg]) -> bool
        ensures { result ≡ suits (numbered (entries self.now) entry) row.now };

    ghost few: { (x : Self) → length (entries x) ≤ 64 };

    ghost typed: { (x : Self) → AllByRecursion Typed (entries x) };

    ghost sized: { (x : Self) → AllByRecursion Sized (entries x) };
}
