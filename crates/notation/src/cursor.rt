// A text that is read from its front.
ghost use Rattle.std.specs.Prelude.{◌≡◌, Some, None, MatchOption};
ghost use Rattle.notation.specs.LegReading.{whole};
ghost use Rattle.notation.specs.Reading.{Reads, opens, one, mark, digit_at, more, number};

use crate::part::LegPart;
use std::marker::Model;

// What is left of a text, which a contract reads as its characters.
#[derive(Drop)]
pub(crate) struct Cursor<'a> {
    rest: &'a [u8],
}

impl<'a> Model for Cursor<'a> {
    ghost use Rattle.std.specs.Prelude.{ℕ, List};

    ghost Value = { List ℕ };

    ghost view = { λ s. s.rest.now };
}

impl<'a> Cursor<'a> {
    pub(crate) fn new(text: &'a [u8]) -> Cursor<'a>
        ensures { result ≡ text.now }
    {
        Cursor { rest: text }
    }

    // The next character.
    pub(crate) fn next(&mut self, part: LegPart) -> Result<u8, LegPart>
        ensures { Reads (one part) self.old result self.new }
    {
        let (first, rest) = self.rest.split_first().ok_or(part)?;
        self.rest = rest;
        Ok(*first)
    }

    // The next character, which has to be this one.
    pub(crate) fn expect(&mut self, wanted: u8, part: LegPart) -> Result<(), LegPart>
        ensures { Reads (mark wanted part) self.old result self.new }
    {
        if self.next(part)? == wanted {
            Ok(())
        } else {
            Err(part)
        }
    }

    // Whether this character is the next.
    pub(crate) fn is_at(&self, wanted: u8) -> bool
        ensures { result ≡ opens wanted self.now }
    {
        self.rest.first() == Some(&wanted)
    }

    // The next character's digit, if it is one.
    fn digit(&mut self) -> Option<u8>
        ensures { MatchOption result ((digit_at self.old ≡ None) × (self.new ≡ self.old)) (λ d. digit_at self.old ≡ Some (d, self.new)) }
    {
        let (first, rest) = self.rest.split_first()?;
        if !first.is_ascii_digit() {
            return None;
        }
        self.rest = rest;
        Some(*first - b'0')
    }

    // All the digits from here on, after those of a number. By `while let`, since the cursor has to stand behind them in the end.
    fn digits_after(&mut self, start: u32, part: LegPart) -> Result<u32, LegPart>
        ensures { Reads (more part start) self.old result self.new }
    {
        let mut value = start;
        while let Some(digit) = self.digit() {
            value = value
                .checked_mul(10)
                .and_then(|tens| tens.checked_add(u32::from(digit)))
                .ok_or(part)?;
        }
        Ok(value)
    }

    // A number: one digit or more, as many as there are.
    pub(crate) fn number(&mut self, part: LegPart) -> Result<u32, LegPart>
        ensures { Reads (number part) self.old result self.new }
    {
        let first = self.digit().ok_or(part)?;
        self.digits_after(u32::from(first), part)
    }

    // Refuses what follows.
    pub(crate) fn end(&self) -> Result<(), LegPart>
        ensures { result ≡ whole (Ok (tt, self.now)) }
    {
        if self.rest.is_empty() {
            Ok(())
        } else {
            Err(LegPart::End)
        }
    }
}
