// The mark of a record as it is read and shown.
ghost use Rattle.std.specs.Prelude.{Some};
ghost use Rattle.records.specs.Letters.{mark_text, mark_of};
ghost use Rattle.records.specs.Lettered.{marks_told};

use contracts::letter::Letter;
use std::fmt;

// Whether it is set.
#[derive(Clone, Copy)]
pub(crate) struct Mark(pub(crate) bool);

impl fmt::Display for Mark {
    ghost output = { λ mark. Some (mark_text mark.0) };

    fn fmt<W: fmt::Write>(&self, f: &mut fmt::Formatter<W>) -> fmt::Result {
        match self {
            Mark(true) => write!(f, "M"),
            Mark(false) => write!(f, "-"),
        }
    }
}

impl Letter for Mark {
    ghost meaning = { mark_of };

    ghost told = { marks_told };

    fn from_letter(letter: u8) -> Option<Mark> {
        match letter {
            b'M' => Some(Mark(true)),
            b'-' => Some(Mark(false)),
            _ => None,
        }
    }
}
