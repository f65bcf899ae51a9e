// The words of a line: its longest runs of characters other than spaces.
ghost use Rattle.std.specs.Prelude.{◌≡◌, ◌≤◌, length};
ghost use Rattle.std.specs.Iterator.{YieldsFirstRef, item_count};
ghost use Rattle.notation.specs.Words.{words, body_of};

use std::marker::Model;

// What is left of a line, which a contract reads as its words. Bytes, since a line may hold any.
#[derive(Clone, Drop)]
pub struct Words<'a> {
    rest: &'a [u8],
}

impl<'a> Model for Words<'a> {
    ghost use Rattle.std.specs.Prelude.{ℕ, List};
    ghost use Rattle.notation.specs.Words.{words};

    ghost Value = { List (List ℕ) };

    ghost view = { λ s. words s.rest.now };
}

impl<'a> Words<'a> {
    // All the words of a line.
    #[tactic(auto, using(crate::proofs::Split::words_few))]
    pub fn new(line: &'a [u8]) -> Words<'a>
        ensures words { result ≡ words line.now }
        ensures few { length result ≤ length line.now }
    {
        Words { rest: line }
    }

    // What is left of the line as it stands there, so that words can be taken ahead and `Words::new` goes on from where they end.
    pub fn rest(&self) -> &'a [u8]
        ensures { words result.now ≡ self.now }
    {
        let Words { rest } = self;
        *rest
    }
}

impl<'a> Iterator for Words<'a> {
    type Item = &'a [u8];

    ghost next_gives = { YieldsFirstRef (λ s. s) };

    ghost remaining = { item_count (λ s. s) };

    fn next(&mut self) -> Option<&'a [u8]> {
        let start = self.rest.iter().position(|c| *c != b' ')?;
        let (_, text) = self.rest.split_at(start);
        let end = text.iter().position(|c| *c == b' ').unwrap_or(text.len());
        let (word, rest) = text.split_at(end);
        self.rest = rest;
        Some(word)
    }
}

// A line without its line feed and the carriage return before it, if it has them.
pub fn body(line: &[u8]) -> &[u8]
    ensures { result.now ≡ body_of line.now }
{
    let line = line.strip_suffix(b"\n").unwrap_or(line);
    line.strip_suffix(b"\r").unwrap_or(line)
}
