// From plain numbers to a contract in range.
ghost use Rattle.std.specs.Prelude.{◌≡◌, MatchResult};
ghost use Rattle.contracts.specs.Plain.{plain_root, plain_month, plain_underlying, plain_contract, RootInRange, MonthInRange, UnderlyingInRange, ContractInRange};

use crate::contract::{Contract, Underlying};
use crate::plain::{PlainContract, PlainMonth, PlainRoot, PlainUnderlying};
use crate::root::Root;
use keys::month::Month;
use keys::strike::Strike;

// One of the numbers is out of range.
#[derive(Clone, Copy, PartialEq, Eq)]
pub struct OutOfRange;

impl TryFrom<PlainRoot> for Root {
    type Error = OutOfRange;

    ghost try_from_gives = { λ plain read. MatchResult read (λ x. plain_root x ≡ plain) (λ _. RootInRange plain → ⊥) };

    fn try_from(plain: PlainRoot) -> Result<Root, OutOfRange> {
        Root::new(plain.first, plain.second, plain.third).ok_or(OutOfRange)
    }
}

impl TryFrom<PlainMonth> for Month {
    type Error = OutOfRange;

    ghost try_from_gives = { λ plain read. MatchResult read (λ x. plain_month x ≡ plain) (λ _. MonthInRange plain → ⊥) };

    fn try_from(plain: PlainMonth) -> Result<Month, OutOfRange> {
        Month::new(plain.year, plain.month).ok_or(OutOfRange)
    }
}

impl TryFrom<PlainUnderlying> for Underlying {
    type Error = OutOfRange;

    ghost try_from_gives = { λ plain read. MatchResult read (λ x. plain_underlying x ≡ plain) (λ _. UnderlyingInRange plain → ⊥) };

    fn try_from(plain: PlainUnderlying) -> Result<Underlying, OutOfRange> {
        match plain {
            PlainUnderlying::Spot => Ok(Underlying::Spot),
            PlainUnderlying::Future(month) => Ok(Underlying::Future(month.try_into()?)),
        }
    }
}

impl TryFrom<PlainContract> for Contract {
    type Error = OutOfRange;

    ghost try_from_gives = { λ plain read. MatchResult read (λ x. plain_contract x ≡ plain) (λ _. ContractInRange plain → ⊥) };

    fn try_from(plain: PlainContract) -> Result<Contract, OutOfRange> {
        match plain {
            PlainContract::Future { root, month } => {
                Ok(Contract::Future {
                    root: root.try_into()?,
                    month: month.try_into()?,
                })
            }
            PlainContract::Option {
                right,
                root,
                month,
                strike,
                underlying,
            } => Ok(Contract::Option {
                right,
                root: root.try_into()?,
                month: month.try_into()?,
                strike: Strike::new(strike).ok_or(OutOfRange)?,
                underlying: underlying.try_into()?,
            }),
        }
    }
}
