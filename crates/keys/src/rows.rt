// The two tests that are written once for all keys.
ghost use Rattle.std.specs.Prelude.{◌≡◌, true, length, pos, ◌*ℤ◌, Decides};
ghost use Rattle.keys.specs.Rows.{Climbing, Rising, Ascending, Halfway, Even};

use crate::key::{Key, SpacedKey};

// Whether each key is before the next; it is then before every later one.
pub fn rising<K: Key>(row: &[K]) -> bool
    ensures next { Decides result (Rising K.cmp row.now) }
    ensures later { result ≡ true → Ascending K.cmp row.now }
{
    row.windows(2).all(
        |pair|
            requires { length pair.now ≡ 2 }
            ensures { Decides result (Climbing K.cmp pair.now) }
        { pair[0] < pair[1] },
    )
}

// Whether the second of three keys lies halfway between the others. Twice a distance fits, since none passes the greatest of its kind.
fn halfway<K: SpacedKey>(a: &K, b: &K, c: &K) -> bool
    ensures { Decides result (K.gap a.now c.now ≡ pos 2 *ℤ K.gap a.now b.now) }
{
    a.distance(c) == 2 * a.distance(b)
}

// Whether all distances between neighbours are the same.
pub fn even_steps<K: SpacedKey>(row: &[K]) -> bool
    ensures { Decides result (Even K.gap row.now) }
{
    row.windows(3).all(
        |three|
            requires { length three.now ≡ 3 }
            ensures { Decides result (Halfway K.gap three.now) }
        { halfway(&three[0], &three[1], &three[2]) },
    )
}
