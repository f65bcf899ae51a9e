// Ladder order: root, then future before call before put, then month, strike and underlying.
ghost use Rattle.std.specs.Prelude.{◌≡◌, Decides};
ghost use Rattle.std.specs.Ordering.{as_partial_cmp};
ghost use Rattle.contracts.specs.Ladder.{ladder};
ghost use Rattle.std.specs.Cmp.{partial_order_from_agreeing_total};
ghost use Rattle.std.proofs.Common.{refl};
ghost use Rattle.contracts.specs.Rungs.{ladder_same, ladder_total, ladder_equal};

use crate::contract::Contract;
use keys::key::Key;
use std::cmp::Ordering;

// By hand: the root stands before the kind, and a derive compares the kind first.
impl Ord for Contract {
    ghost cmp = { ladder };

    ghost total = { ladder_total };

    ghost matches_partial_cmp = { λ x y. refl };

    ghost matches_eq = { ladder_equal };

    #[tactic(auto, using(crate::proofs::Steps::steps))]
    fn cmp(&self, other: &Contract) -> Ordering {
        self.root()
            .cmp(&other.root())
            .then(self.kind().cmp(&other.kind()))
            .then(self.month().cmp(&other.month()))
            .then(self.strike().cmp(&other.strike()))
            .then(self.underlying().cmp(&other.underlying()))
    }
}

impl PartialOrd for Contract {
    ghost partial_cmp = { as_partial_cmp ladder };

    ghost laws = { partial_order_from_agreeing_total ladder ladder_total (λ x y. refl) ladder_equal };

    fn partial_cmp(&self, other: &Contract) -> Option<Ordering> {
        Some(self.cmp(other))
    }
}

impl Key for Contract {
    ghost same = { ladder_same };
}

// Whether two contracts are one instrument. It has a name of its own, since it promises that `==` holds of equal contracts alone.
#[tactic(auto, using(crate::specs::Alike::contract_decides))]
pub fn same_instrument(x: &Contract, y: &Contract) -> bool
    ensures { Decides result (x.now ≡ y.now) }
{
    x == y
}
