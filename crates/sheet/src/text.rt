// How a role and a relation of a record are shown.
ghost use Rattle.std.specs.Prelude.{Some};
ghost use Rattle.sheet.specs.Writing.{role_text, relation_text};

use crate::record::{Relation, Role};
use std::fmt;

impl fmt::Display for Role {
    ghost output = { λ role. Some (role_text role) };

    fn fmt<W: fmt::Write>(&self, f: &mut fmt::Formatter<W>) -> fmt::Result {
        let Role { side, ratio, kind } = self;
        write!(f, "{side}{ratio}{kind}")
    }
}

impl fmt::Display for Relation {
    ghost output = { λ relation. Some (relation_text relation) };

    fn fmt<W: fmt::Write>(&self, f: &mut fmt::Formatter<W>) -> fmt::Result {
        match self {
            Relation::Compare {
                aspect,
                first,
                comparison,
                second,
            } => write!(f, "{aspect}:{first}{comparison}{second}"),
            Relation::EvenSteps {
                aspect,
                first,
                second,
                third,
            } => write!(f, "{aspect}:{first}~{second}~{third}"),
        }
    }
}
