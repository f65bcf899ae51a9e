// A record of a sheet as it is supplied: any number of roles and relations, any characters and numbers.
use catalogue::strategy::StrategyType;
use contracts::contract::Kind;
use contracts::plain::Side;

// What a leg has to be to play a role.
#[derive(Clone, Copy, PartialEq, Eq)]
pub struct Role {
    pub side: Side,
    pub ratio: u32,
    pub kind: Kind,
}

// What a relation looks at in the contracts of its roles.
#[derive(Clone, Copy, PartialEq, Eq)]
pub enum Aspect {
    Strike,
    Month,
}

#[derive(Clone, Copy, PartialEq, Eq)]
pub enum Comparison {
    Before,
    Same,
    After,
    Different,
}

// Roles are numbered from 1.
#[derive(Clone, Copy, PartialEq, Eq)]
pub enum Relation {
    // The first role's strike or month is before, the same as, after or different from the second's.
    Compare {
        aspect: Aspect,
        first: u32,
        comparison: Comparison,
        second: u32,
    },
    // The distance from the first role to the second is that from the second to the third.
    EvenSteps {
        aspect: Aspect,
        first: u32,
        second: u32,
        third: u32,
    },
}

// The mark, if set, wants one root and, among the options, one underlying. It is set or not, with no value beside it.
#[derive(Drop)]
pub struct Record {
    pub strategy: StrategyType,
    pub marked: bool,
    pub roles: Vec<Role>,
    pub relations: Vec<Relation>,
}
