// A line of the script from its words.
ghost use Rattle.std.specs.Prelude.{◌≡◌, ◌^◌, ◌<◌, [], ◌∷◌, length, take, MatchResult};
ghost use Rattle.notation.specs.Words.{words, body_of};
ghost use Rattle.notation.specs.Reading.{Reads};
ghost use Rattle.script.specs.Lines.{trouble, number_word, field, ended, read_market, read_legs, read_ticket, made, reading, kept_of};
ghost use Rattle.script.specs.declared.line.What.TheVariants.{MissingWord};
ghost use Rattle.script.specs.declared.line.Line.TheVariants.{Ticket as ticket};

use crate::line::{Line, Trouble, What};
use contracts::plain::{PlainLeg, Reference};
use notation::field::{read_number, read_state};
use notation::part::LegPart;
use notation::read::read_leg;
use notation::words::{Words, body};
use tickets::row::Row;

// The next word of a line, whose words are numbered; records have the same over their own trouble.
fn next_word<'a>(words: &mut Words<'a>, word: usize) -> Result<&'a [u8], Trouble>
    ensures { MatchResult result (λ text. words.old ≡ text.now ∷ words.new) (λ t. (words.old ≡ []) × (t ≡ trouble word MissingWord)) }
{
    words.next().ok_or(What::MissingWord.at(word))
}

fn read_field(words: &mut Words, word: usize, part: LegPart) -> Result<u32, Trouble>
    ensures { Reads (field (number_word part) word) words.old result words.new }
{
    read_number(next_word(words, word)?, part).map_err(|part| What::Part(part).at(word))
}

// Refuses a word that follows.
fn end(words: &mut Words, word: usize) -> Result<(), Trouble>
    ensures { Reads (ended word) words.old result words.new }
{
    match words.next() {
        Some(_) => Err(What::SurplusWord.at(word)),
        None => Ok(()),
    }
}

fn read_market(words: &mut Words) -> Result<Reference, Trouble>
    ensures { Reads read_market words.old result words.new }
{
    let core = read_field(words, 2, LegPart::Core)?;
    let lot_size = read_field(words, 3, LegPart::LotSize)?;
    let tick = read_field(words, 4, LegPart::Tick)?;
    let state = read_state(next_word(words, 5)?).map_err(|part| What::Part(part).at(5))?;
    let session_end = read_field(words, 6, LegPart::SessionEnd)?;
    end(words, 7)?;
    Ok(Reference {
        core,
        lot_size,
        tick,
        state,
        session_end,
    })
}

fn read_legs(words: &mut Words, market: &Reference) -> Result<Row<PlainLeg, 5>, Trouble>
    requires { length words.old < 2 ^ 63 }
    ensures { result ≡ made (take 5) (read_legs market.now 3 words.old) }
{
    let mut legs = Row::new();
    for (i, text) in words.enumerate() {
        let leg = read_leg(text, market).map_err(|part| What::Part(part).at(i + 3))?;
        legs.keep(leg);
    }
    Ok(legs)
}

fn read_ticket(words: &mut Words, market: &Reference) -> Result<Line, Trouble>
    requires { length words.old < 2 ^ 63 }
    ensures { result ≡ made (λ t. ticket t.0 (take 5 t.1)) (read_ticket market.now words.old) }
{
    let minute = read_number(next_word(words, 2)?, LegPart::End).map_err(|_| What::Minute.at(2))?;
    let legs = read_legs(words, market)?;
    Ok(Line::Ticket { minute, legs })
}

// What a line says, with or without its line feed, or none where it is passed over. Of a ticket's legs the first five are kept. The first word is asked for by `==`, since a match on its bytes was not proved.
pub(crate) fn read_line(line: &[u8], market: &Reference) -> Result<Option<Line>, Trouble>
    ensures { result ≡ kept_of (reading market.now (words (body_of line.now))) }
{
    let mut words = Words::new(body(line));
    let Some(word) = words.next() else {
        return Ok(None);
    };
    if word.starts_with(b"#") {
        Ok(None)
    } else if word == b"market".as_slice() {
        Ok(Some(Line::Market(read_market(&mut words)?)))
    } else if word == b"ticket".as_slice() {
        Ok(Some(read_ticket(&mut words, market)?))
    } else {
        Err(What::UnknownCall.at(1))
    }
}
