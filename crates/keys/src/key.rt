// What stands in a total order, and what has distances in that order.
ghost use Rattle.std.specs.Prelude.{◌≡◌, ◌^◌, ℤ, pos, ◌+ℤ◌, neg_ℤ, ◌≤ℤ◌, ◌<ℤ◌};
ghost use Rattle.std.specs.declared.cmp.Ordering.TheVariants.{Less, Equal};

// Anything with a total order in which what compares equal is one and the same.
pub trait Key: Ord {
    ghost same: { (x y : Self) → Self.cmp x y ≡ Equal → x ≡ y };
}

// A key with a whole-number distance from each to each, positive exactly where the first is before the second.
pub trait SpacedKey: Key {
    // The greatest distance of the kind, which clauses name as well.
    const GREATEST: i32;

    ghost GREATEST: { ℤ };

    ghost gap: { Self → Self → ℤ };

    fn distance(&self, other: &Self) -> i32
        ensures { result ≡ gap self.now other.now };

    ghost ahead: { (x y : Self) → Self.cmp x y ≡ Less → pos 0 <ℤ gap x y };

    ghost behind: { (x y : Self) → pos 0 <ℤ gap x y → Self.cmp x y ≡ Less };

    ghost adds: { (x y z : Self) → gap x z ≡ gap x y +ℤ gap y z };

    ghost near: { (x y : Self) → gap x y ≤ℤ GREATEST };

    ghost far: { (x y : Self) → neg_ℤ GREATEST ≤ℤ gap x y };

    // Two keys of the kind stand that far apart.
    ghost reached: { (x : Self) × (y : Self) × (gap x y ≡ GREATEST) };

    // Twice a distance fits a signed number of 32 bits.
    ghost small: { (GREATEST +ℤ GREATEST) <ℤ pos (2 ^ 31) };
}
