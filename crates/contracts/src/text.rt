// How a contract is shown, and a leg: by its side, its ratio as the lots, and its contract.
ghost use Rattle.std.specs.Prelude.{Some};
ghost use Rattle.contracts.specs.Letters.{right_text};
ghost use Rattle.contracts.specs.Writing.{root_text, underlying_text, contract_text, leg_text};

use crate::contract::{Contract, Kind, Right, Underlying};
use crate::leg::Leg;
use crate::root::Root;
use std::fmt;

impl fmt::Display for Root {
    ghost output = { λ root. Some (root_text root) };

    fn fmt<W: fmt::Write>(&self, f: &mut fmt::Formatter<W>) -> fmt::Result {
        let first = char::from(self.first);
        let second = char::from(self.second);
        let third = char::from(self.third);
        write!(f, "{first}{second}{third}")
    }
}

impl fmt::Display for Right {
    ghost output = { λ right. Some (right_text right) };

    fn fmt<W: fmt::Write>(&self, f: &mut fmt::Formatter<W>) -> fmt::Result {
        let kind = Kind::from(*self);
        write!(f, "{kind}")
    }
}

// Nothing for the spot.
impl fmt::Display for Underlying {
    ghost output = { λ underlying. Some (underlying_text underlying) };

    fn fmt<W: fmt::Write>(&self, f: &mut fmt::Formatter<W>) -> fmt::Result {
        match self {
            Underlying::Spot => Ok(()),
            Underlying::Future(month) => write!(f, "@{month}"),
        }
    }
}

impl fmt::Display for Contract {
    ghost output = { λ contract. Some (contract_text contract) };

    fn fmt<W: fmt::Write>(&self, f: &mut fmt::Formatter<W>) -> fmt::Result {
        match self {
            Contract::Future { root, month } => write!(f, "{root}:F:{month}"),
            Contract::Option {
                right,
                root,
                month,
                strike,
                underlying,
            } => write!(f, "{root}:{right}:{month}:{strike}{underlying}"),
        }
    }
}

impl fmt::Display for Leg {
    ghost output = { λ leg. Some (leg_text leg) };

    #[tactic(auto, unfolding(crate::specs::Writing::leg_text))]
    fn fmt<W: fmt::Write>(&self, f: &mut fmt::Formatter<W>) -> fmt::Result {
        let side = self.side;
        let lots = self.ratio;
        let contract = self.contract;
        write!(f, "{side}{lots}:{contract}")
    }
}
