// A contract: a future, or an option on the spot or on a future.
ghost use Rattle.std.specs.Prelude.{◌≡◌};
ghost use Rattle.contracts.specs.Parts.{root_of, kind_of_right, kind_of, month_of, strike_of, underlying_of};

use crate::root::Root;
use keys::month::Month;
use keys::strike::Strike;

#[derive(Clone, Copy, PartialEq, Eq)]
pub enum Right {
    Call,
    Put,
}

// What a contract is, in ladder order.
#[derive(Clone, Copy, PartialEq, Eq, PartialOrd, Ord)]
pub enum Kind {
    Future,
    Call,
    Put,
}

// What an option is on: the spot of its root, or the future of its root in a month.
#[derive(Clone, Copy, PartialEq, Eq, PartialOrd, Ord)]
pub enum Underlying {
    Spot,
    Future(Month),
}

#[derive(Clone, Copy, PartialEq, Eq)]
pub enum Contract {
    Future {
        root: Root,
        month: Month,
    },
    Option {
        right: Right,
        root: Root,
        month: Month,
        strike: Strike,
        underlying: Underlying,
    },
}

impl From<Right> for Kind {
    ghost from_gives = { λ right kind. kind ≡ kind_of_right right };

    fn from(right: Right) -> Kind {
        match right {
            Right::Call => Kind::Call,
            Right::Put => Kind::Put,
        }
    }
}

impl Contract {
    pub fn root(&self) -> Root
        ensures { result ≡ root_of self.now }
    {
        match *self {
            Contract::Future { root, .. } | Contract::Option { root, .. } => root,
        }
    }

    pub fn kind(&self) -> Kind
        ensures { result ≡ kind_of self.now }
    {
        match *self {
            Contract::Future { .. } => Kind::Future,
            Contract::Option { right, .. } => Kind::from(right),
        }
    }

    pub fn month(&self) -> Month
        ensures { result ≡ month_of self.now }
    {
        match *self {
            Contract::Future { month, .. } | Contract::Option { month, .. } => month,
        }
    }

    // A future has none.
    pub fn strike(&self) -> Option<Strike>
        ensures { result ≡ strike_of self.now }
    {
        match *self {
            Contract::Future { .. } => None,
            Contract::Option { strike, .. } => Some(strike),
        }
    }

    // A future has none.
    pub fn underlying(&self) -> Option<Underlying>
        ensures { result ≡ underlying_of self.now }
    {
        match *self {
            Contract::Future { .. } => None,
            Contract::Option { underlying, .. } => Some(underlying),
        }
    }
}
