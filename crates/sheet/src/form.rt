// Which records are in form.
ghost use Rattle.std.specs.Prelude.{◌≤◌, length, Decides};
ghost use Rattle.std.specs.List.{AllByRecursion};
ghost use Rattle.sheet.specs.Forms.{InForm, NamesRole, RatioInForm, RelationInForm};
ghost use Rattle.sheet.specs.Rules.{rule_of};

use crate::record::{Record, Relation, Role};
use contracts::root::is_code_character;

impl Role {
    fn in_form(&self) -> bool
        ensures { Decides result (RatioInForm self.now) }
    {
        (1..=9).contains(&self.ratio)
    }
}

// Roles are numbered from 1.
fn names_role(count: usize, k: u32) -> bool
    ensures { Decides result (NamesRole count k) }
{
    (1..=count).contains(&(k as usize))
}

impl Relation {
    // Whether it names roles of its own record, all of them different.
    fn in_form(&self, count: usize) -> bool
        ensures { Decides result (RelationInForm count self.now) }
    {
        match *self {
            Relation::Compare { first, second, .. } => {
                names_role(count, first) && names_role(count, second) && first != second
            }
            Relation::EvenSteps {
                first,
                second,
                third,
                ..
            } => {
                names_role(count, first)
                    && names_role(count, second)
                    && names_role(count, third)
                    && first != second
                    && first != third
                    && second != third
            }
        }
    }
}

fn roles_in_form(roles: &[Role]) -> bool
    ensures { Decides result ((2 ≤ length roles.now) × (length roles.now ≤ 4) × AllByRecursion RatioInForm roles.now) }
{
    (2..=4).contains(&roles.len()) && roles.iter().all(|role| role.in_form())
}

fn relations_in_form(count: usize, relations: &[Relation]) -> bool
    ensures { Decides result ((length relations.now ≤ 6) × AllByRecursion (RelationInForm count) relations.now) }
{
    relations.len() <= 6 && relations.iter().all(|relation| relation.in_form(count))
}

impl Record {
    pub(crate) fn in_form(&self) -> bool
        ensures { Decides result (InForm (rule_of self.now)) }
    {
        is_code_character(self.strategy.first)
            && is_code_character(self.strategy.second)
            && roles_in_form(&self.roles)
            && relations_in_form(self.roles.len(), &self.relations)
    }
}
