// What one letter stands for.
ghost use Rattle.std.specs.Prelude.{◌≡◌, ◌↔◌, ℕ, Some, Option, [], ◌∷◌};
ghost use Rattle.contracts.specs.Letters.{side_text, side_of, kind_text, kind_of, state_text, state_of};
ghost use Rattle.contracts.specs.Lettered.{sides_told, kinds_told, states_told};

use crate::contract::Kind;
use crate::plain::{Side, State};
use std::fmt;

// A value that one letter stands for, which is how it is shown.
pub trait Letter: fmt::Display + Sized {
    ghost meaning: { ℕ → Option Self };

    fn from_letter(letter: u8) -> Option<Self>
        ensures { result ≡ meaning letter };

    // What a letter stands for is shown as that letter, and nothing else is.
    ghost told: { (c : ℕ) (x : Self) → (meaning c ≡ Some x) ↔ (Self.output x ≡ Some (c ∷ [])) };
}

impl fmt::Display for Side {
    ghost output = { λ x. Some (side_text x) };

    fn fmt<W: fmt::Write>(&self, f: &mut fmt::Formatter<W>) -> fmt::Result {
        match self {
            Side::Bought => write!(f, "B"),
            Side::Sold => write!(f, "S"),
        }
    }
}

impl Letter for Side {
    ghost meaning = { side_of };

    ghost told = { sides_told };

    fn from_letter(letter: u8) -> Option<Side> {
        match letter {
            b'B' => Some(Side::Bought),
            b'S' => Some(Side::Sold),
            _ => None,
        }
    }
}

impl fmt::Display for Kind {
    ghost output = { λ x. Some (kind_text x) };

    fn fmt<W: fmt::Write>(&self, f: &mut fmt::Formatter<W>) -> fmt::Result {
        match self {
            Kind::Future => write!(f, "F"),
            Kind::Call => write!(f, "C"),
            Kind::Put => write!(f, "P"),
        }
    }
}

impl Letter for Kind {
    ghost meaning = { kind_of };

    ghost told = { kinds_told };

    fn from_letter(letter: u8) -> Option<Kind> {
        match letter {
            b'F' => Some(Kind::Future),
            b'C' => Some(Kind::Call),
            b'P' => Some(Kind::Put),
            _ => None,
        }
    }
}

impl fmt::Display for State {
    ghost output = { λ x. Some (state_text x) };

    fn fmt<W: fmt::Write>(&self, f: &mut fmt::Formatter<W>) -> fmt::Result {
        match self {
            State::Trading => write!(f, "T"),
            State::Auction => write!(f, "A"),
            State::Suspended => write!(f, "H"),
            State::Forbidden => write!(f, "X"),
        }
    }
}

impl Letter for State {
    ghost meaning = { state_of };

    ghost told = { states_told };

    fn from_letter(letter: u8) -> Option<State> {
        match letter {
            b'T' => Some(State::Trading),
            b'A' => Some(State::Auction),
            b'H' => Some(State::Suspended),
            b'X' => Some(State::Forbidden),
            _ => None,
        }
    }
}
