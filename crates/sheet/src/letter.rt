// The letters of a relation: what it looks at, and how its roles compare.
ghost use Rattle.std.specs.Prelude.{Some};
ghost use Rattle.sheet.specs.Letters.{aspect_text, aspect_of, comparison_text, comparison_of};
ghost use Rattle.sheet.specs.Lettered.{aspects_told, comparisons_told};

use crate::record::{Aspect, Comparison};
use contracts::letter::Letter;
use std::fmt;

impl fmt::Display for Aspect {
    ghost output = { λ x. Some (aspect_text x) };

    fn fmt<W: fmt::Write>(&self, f: &mut fmt::Formatter<W>) -> fmt::Result {
        match self {
            Aspect::Strike => write!(f, "s"),
            Aspect::Month => write!(f, "m"),
        }
    }
}

impl Letter for Aspect {
    ghost meaning = { aspect_of };

    ghost told = { aspects_told };

    fn from_letter(letter: u8) -> Option<Aspect> {
        match letter {
            b's' => Some(Aspect::Strike),
            b'm' => Some(Aspect::Month),
            _ => None,
        }
    }
}

impl fmt::Display for Comparison {
    ghost output = { λ x. Some (comparison_text x) };

    fn fmt<W: fmt::Write>(&self, f: &mut fmt::Formatter<W>) -> fmt::Result {
        match self {
            Comparison::Before => write!(f, "<"),
            Comparison::Same => write!(f, "="),
            Comparison::After => write!(f, ">"),
            Comparison::Different => write!(f, "!"),
        }
    }
}

impl Letter for Comparison {
    ghost meaning = { comparison_of };

    ghost told = { comparisons_told };

    fn from_letter(letter: u8) -> Option<Comparison> {
        match letter {
            b'<' => Some(Comparison::Before),
            b'=' => Some(Comparison::Same),
            b'>' => Some(Comparison::After),
            b'!' => Some(Comparison::Different),
            _ => None,
        }
    }
}
