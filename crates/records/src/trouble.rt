// Why a text is no record.
ghost use Rattle.std.specs.Prelude.{◌≡◌};
ghost use Rattle.records.specs.Reading.{trouble_at};
ghost use Rattle.records.specs.declared.trouble.Unread.TheVariants.{Trouble, NoMemory};

use std::alloc::{AllocError, AllocFailed};

#[derive(Clone, Copy, PartialEq, Eq)]
pub enum RecordPart {
    // The type or the mark is not there.
    Missing,
    Type,
    Mark,
    // Neither a role nor a relation, or a role behind a relation.
    Term,
}

impl RecordPart {
    // The trouble with a word.
    pub(crate) fn at(self, word: usize) -> RecordTrouble
        ensures { result ≡ trouble_at word self }
    {
        RecordTrouble { word, part: self }
    }
}

// The words are counted from 1, so that the type is the first.
#[derive(Clone, Copy, PartialEq, Eq)]
pub struct RecordTrouble {
    pub word: usize,
    pub part: RecordPart,
}

#[derive(Clone, Copy, PartialEq, Eq)]
pub enum Unread {
    Trouble(RecordTrouble),
    NoMemory,
}

// By hand, all three: a derive has no `from_gives`, by which clauses name what a `?` makes.
impl From<RecordTrouble> for Unread {
    ghost from_gives = { λ t r. r ≡ Trouble t };

    fn from(trouble: RecordTrouble) -> Unread {
        Unread::Trouble(trouble)
    }
}

impl From<AllocError> for Unread {
    ghost from_gives = { λ _ r. r ≡ NoMemory };

    fn from(_error: AllocError) -> Unread {
        Unread::NoMemory
    }
}

impl<T: Drop> From<AllocFailed<T>> for Unread {
    ghost from_gives = { λ _ r. r ≡ NoMemory };

    fn from(_refused: AllocFailed<T>) -> Unread {
        Unread::NoMemory
    }
}
