// The text of a record.
ghost use Rattle.std.specs.Prelude.{◌≡◌, IfOk, string_bytes};
ghost use Rattle.sheet.specs.Rules.{rule_of};
ghost use Rattle.records.specs.Writing.{shown, behind_type, record_text};

use crate::mark::Mark;
use sheet::record::Record;
use std::alloc::{AllocError, Global};
use std::fmt;

// Each with a space before it.
#[derive(Clone, Copy)]
struct Spaced<'a, T>(&'a [T]);

impl<'a, T: fmt::Display> fmt::Display for Spaced<'a, T> {
    ghost output = { λ s. shown T.output s.0.now };

    #[tactic(auto, using(crate::proofs::Pieces::spaced_more))]
    fn fmt<W: fmt::Write>(&self, f: &mut fmt::Formatter<W>) -> fmt::Result {
        for item in self.0 {
            write!(f, " {item}")?;
        }
        Ok(())
    }
}

// What stands behind the type.
#[tactic(auto, using(crate::proofs::Pieces::roles_shown, crate::proofs::Pieces::relations_shown))]
fn behind_type(heap: Global, record: &Record) -> Result<String, AllocError>
    ensures { IfOk result (λ s. string_bytes s ≡ behind_type (rule_of «record».now)) }
{
    let mark = Mark(record.marked);
    let roles = Spaced(&record.roles);
    let relations = Spaced(&record.relations);
    format!(in heap; " {mark}{roles}{relations}")
}

// Bytes, since a type may be any two.
#[tactic(auto, unfolding(crate::specs::Writing::record_text))]
pub fn record_text(heap: Global, record: &Record) -> Result<Vec<u8>, AllocError>
    ensures { IfOk result (λ v. v.items ≡ record_text (rule_of «record».now)) }
{
    let mut text = vec![in heap; record.strategy.first, record.strategy.second]?;
    text.extend_from_slice(behind_type(heap, record)?.as_bytes())?;
    Ok(text)
}
