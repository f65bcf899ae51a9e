// Whether a record fits a row of legs, one leg for each role.
ghost use Rattle.std.specs.Prelude.{◌≡◌, length};
ghost use Rattle.std.specs.List.{All, list_all, zip};
ghost use Rattle.catalogue.specs.Entries.{suits};
ghost use Rattle.catalogue.specs.Rows.{leg_of};
ghost use Rattle.sheet.specs.Forms.{NamesRole, RelationInForm};
ghost use Rattle.sheet.specs.Meaning.{can_play, allows, agrees as agreeing, all_agree, ordered, steps_even, relation_holds, meaning};
ghost use Rattle.sheet.specs.Meets.{read};
ghost use Rattle.sheet.specs.Rules.{rule_of};

use crate::formed::FormedRecord;
use crate::record::{Aspect, Comparison, Relation, Role};
use contracts::contract::Contract;
use contracts::leg::Leg;
use keys::rows::even_steps;
use std::cmp::Ordering;

// Whether two legs have one root and, if both are options, one underlying.
fn agree(x: &Leg, y: &Leg) -> bool
    ensures { result ≡ agreeing x.now y.now }
{
    x.contract.root() == y.contract.root()
        && match (x.contract.underlying(), y.contract.underlying()) {
            (Some(u), Some(v)) => u == v,
            _ => true,
        }
}

fn agrees_with_all(x: &Leg, rest: &[Leg]) -> bool
    ensures { result ≡ list_all (agreeing x.now) rest.now }
{
    rest.iter().all(|y| agree(x, y))
}

// Whether all legs have one root and all options one underlying.
fn all_agree(row: &[Leg]) -> bool
    ensures { result ≡ all_agree row.now }
{
    match row.split_first() {
        Some((x, rest)) => agrees_with_all(x, rest) && all_agree(rest),
        None => true,
    }
}

impl Role {
    fn is_played_by(&self, leg: &Leg) -> bool
        ensures { result ≡ can_play self.now leg.now }
    {
        leg.side == self.side && leg.contract.kind() == self.kind && leg.ratio == self.ratio
    }
}

// Whether each leg plays its role, as far as there are both.
fn all_play(roles: &[Role], row: &[Leg]) -> bool
    ensures { result ≡ list_all (λ p. can_play p.0 p.1) (zip roles.now row.now) }
{
    roles
        .iter()
        .zip(row)
        .all(|(role, leg)| role.is_played_by(leg))
}

impl Comparison {
    fn allows(self, order: Ordering) -> bool
        ensures { result ≡ allows self order }
    {
        match self {
            Comparison::Before => order.is_lt(),
            Comparison::Same => order.is_eq(),
            Comparison::After => order.is_gt(),
            Comparison::Different => order.is_ne(),
        }
    }
}

impl Aspect {
    // How x stands to y, or none where a future has no strike.
    fn compare(self, x: &Contract, y: &Contract) -> Option<Ordering>
        ensures { result ≡ ordered (read self x.now) (read self y.now) }
    {
        match self {
            Aspect::Strike => Some(x.strike()?.cmp(&y.strike()?)),
            Aspect::Month => Some(x.month().cmp(&y.month())),
        }
    }

    // Whether the step from x to y is that from y to z. A future has no strike to step from.
    fn steps_even(self, x: &Contract, y: &Contract, z: &Contract) -> bool
        ensures { result ≡ steps_even (read self x.now) (read self y.now) (read self z.now) }
    {
        match self {
            Aspect::Strike => match (x.strike(), y.strike(), z.strike()) {
                (Some(a), Some(b), Some(c)) => even_steps(&[a, b, c]),
                _ => false,
            },
            Aspect::Month => even_steps(&[x.month(), y.month(), z.month()]),
        }
    }
}

// The contract of role k, numbered from 1.
fn contract_of(row: &[Leg], k: u32) -> &Contract
    requires { NamesRole (length row.now) k }
    ensures { result.now ≡ (leg_of row.now k).contract }
{
    &row[k as usize - 1].contract
}

impl Relation {
    fn holds(&self, row: &[Leg]) -> bool
        requires { RelationInForm (length row.now) self.now }
        ensures { result ≡ relation_holds row.now self.now }
    {
        match *self {
            Relation::Compare {
                aspect,
                first,
                comparison,
                second,
            } => aspect
                .compare(contract_of(row, first), contract_of(row, second))
                .is_some_and(|order| comparison.allows(order)),
            Relation::EvenSteps {
                aspect,
                first,
                second,
                third,
            } => aspect.steps_even(
                contract_of(row, first),
                contract_of(row, second),
                contract_of(row, third),
            ),
        }
    }
}

fn all_hold(relations: &[Relation], row: &[Leg]) -> bool
    requires { All (RelationInForm (length row.now)) relations.now }
    ensures { result ≡ list_all (relation_holds row.now) relations.now }
{
    relations.iter().all(|relation| relation.holds(row))
}

impl FormedRecord<'_> {
    pub(crate) fn fits(&self, row: &[Leg]) -> bool
        ensures { result ≡ suits (meaning (rule_of self.now.record.now)) row.now }
    {
        let record = self.record;
        row.len() == record.roles.len()
            && all_play(&record.roles, row)
            && (!record.marked || all_agree(row))
            && all_hold(&record.relations, row)
    }
}
