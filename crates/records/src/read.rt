// A record from its words.
ghost use Rattle.std.specs.Prelude.{◌≡◌, ◌+◌, ◌^◌, ◌<◌, ◌≤◌, [], ◌∷◌, length, IfOk, MatchResult, vec_items, vec_len};
ghost use Rattle.notation.specs.Words.{words};
ghost use Rattle.sheet.specs.Rules.{rule_of};
ghost use Rattle.records.specs.Reading.{Told, ReadAs, trouble_at, take_roles, read_relations, read_words};
ghost use Rattle.records.specs.Spelling.{ReadSpelled};
ghost use Rattle.records.specs.Writing.{ReadBack};
ghost use Rattle.records.specs.declared.trouble.RecordPart.TheVariants.{Missing};

use crate::term::{read_mark, read_relation, read_role, read_type};
use crate::trouble::{RecordPart, RecordTrouble, Unread};
use notation::words::Words;
use sheet::record::{Record, Relation, Role};
use std::alloc::{AllocError, Global};

// The next word of a record, whose words are numbered.
fn next_word<'a>(rest: &mut Words<'a>, word: usize) -> Result<&'a [u8], RecordTrouble>
    ensures { MatchResult result (λ text. rest.old ≡ text.now ∷ rest.new) (λ t. (rest.old ≡ []) × (t ≡ trouble_at word Missing)) }
{
    rest.next().ok_or(RecordPart::Missing.at(word))
}

// The roles at the front. The first word that is none is left, since it may be a relation.
fn read_roles(heap: Global, rest: &mut Words) -> Result<Vec<Role>, AllocError>
    ensures taken { IfOk result (λ v. take_roles rest.old ≡ (v.items, rest.new)) }
    ensures few { IfOk result (λ v. vec_len v + length rest.new ≤ length rest.old) }
{
    let mut roles = Vec::new(heap);
    let mut ahead = Words::new(rest.rest());
    while let Some(role) = ahead.next().and_then(read_role) {
        roles.push(role)?;
        *rest = Words::new(ahead.rest());
    }
    Ok(roles)
}

// Each word is a relation; `start` is the number of the first.
fn read_relations(heap: Global, rest: &mut Words, start: usize) -> Result<Vec<Relation>, Unread>
    requires { start + length rest.old < 2 ^ 64 }
    ensures { Told vec_items (read_relations start rest.old) result }
{
    let mut relations = Vec::new(heap);
    for (i, word) in rest.enumerate() {
        let relation = read_relation(word).ok_or(RecordPart::Term.at(start + i))?;
        relations.push(relation)?;
    }
    Ok(relations)
}

// TYPE MARK ROLE.. RELATION..
fn read_words(heap: Global, text: &[u8]) -> Result<Record, Unread>
    ensures { Told rule_of (read_words (words text.now)) result }
{
    let mut rest = Words::new(text);
    let strategy = read_type(next_word(&mut rest, 1)?).ok_or(RecordPart::Type.at(1))?;
    let marked = read_mark(next_word(&mut rest, 2)?).ok_or(RecordPart::Mark.at(2))?;
    let roles = read_roles(heap, &mut rest)?;
    let first = roles.len() + 3;
    let relations = read_relations(heap, &mut rest, first)?;
    Ok(Record {
        strategy,
        marked,
        roles,
        relations,
    })
}

// The record that a text spells, or the first word that cannot be read.
#[tactic(auto, using(crate::proofs::Spelled::told_spelled, crate::proofs::Written::told_back), unfolding(crate::specs::Reading::read_record))]
pub fn read_record(heap: Global, text: &[u8]) -> Result<Record, Unread>
    ensures value { ReadAs (words text.now) result }
    ensures spelled { ReadSpelled (words text.now) result }
    ensures back { ReadBack text.now result }
{
    read_words(heap, text)
}
