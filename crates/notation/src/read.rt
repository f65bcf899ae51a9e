// A leg from its text.
ghost use Rattle.std.specs.Prelude.{◌≡◌, ◌^◌, ◌<◌, Ok};
ghost use Rattle.contracts.specs.declared.leg.Leg.{Leg};
ghost use Rattle.notation.specs.Reading.{Reads};
ghost use Rattle.notation.specs.Spelling.{Spells};
ghost use Rattle.contracts.specs.Writing.{leg_text};
ghost use Rattle.notation.specs.Writing.{handed_back};
ghost use Rattle.notation.specs.LegReading.{letter, read_root_character, read_root, read_month, read_underlying, read_terms, read_contract, read_field, read_own, read_reference, read_parts, read_leg};

use crate::cursor::Cursor;
use crate::part::LegPart;
use contracts::contract::{Kind, Right};
use contracts::letter::Letter;
use contracts::plain::{
    PlainContract, PlainLeg, PlainMonth, PlainRoot, PlainUnderlying, Reference, Side, State,
};

// What the next letter stands for.
pub(crate) fn read_letter<L: Letter>(cursor: &mut Cursor, part: LegPart) -> Result<L, LegPart>
    ensures { Reads (letter L.meaning part) cursor.old result cursor.new }
{
    let next = cursor.next(part)?;
    L::from_letter(next).ok_or(part)
}

// Any character but a space, `:` and `/`.
fn read_root_character(cursor: &mut Cursor) -> Result<u8, LegPart>
    ensures { Reads read_root_character cursor.old result cursor.new }
{
    match cursor.next(LegPart::Root)? {
        b' ' | b':' | b'/' => Err(LegPart::Root),
        character => Ok(character),
    }
}

fn read_root(cursor: &mut Cursor) -> Result<PlainRoot, LegPart>
    ensures { Reads read_root cursor.old result cursor.new }
{
    let first = read_root_character(cursor)?;
    let second = read_root_character(cursor)?;
    let third = read_root_character(cursor)?;
    Ok(PlainRoot {
        first,
        second,
        third,
    })
}

// Year, `-`, month. Their range is not looked at.
fn read_month(cursor: &mut Cursor, part: LegPart) -> Result<PlainMonth, LegPart>
    ensures { Reads (read_month part) cursor.old result cursor.new }
{
    let year = cursor.number(part)?;
    cursor.expect(b'-', part)?;
    let month = cursor.number(part)?;
    Ok(PlainMonth { year, month })
}

// `@` and a month, or nothing for the spot.
fn read_underlying(cursor: &mut Cursor) -> Result<PlainUnderlying, LegPart>
    ensures { Reads read_underlying cursor.old result cursor.new }
{
    if !cursor.is_at(b'@') {
        return Ok(PlainUnderlying::Spot);
    }
    cursor.expect(b'@', LegPart::Underlying)?;
    Ok(PlainUnderlying::Future(read_month(cursor, LegPart::Underlying)?))
}

// The contract of a kind: of an option, what follows its month is read too.
fn read_terms(
    cursor: &mut Cursor,
    kind: Kind,
    root: PlainRoot,
    month: PlainMonth,
) -> Result<PlainContract, LegPart>
    ensures { Reads (read_terms kind root month) cursor.old result cursor.new }
{
    let right = match kind {
        Kind::Future => return Ok(PlainContract::Future { root, month }),
        Kind::Call => Right::Call,
        Kind::Put => Right::Put,
    };
    cursor.expect(b':', LegPart::Strike)?;
    let strike = cursor.number(LegPart::Strike)?;
    let underlying = read_underlying(cursor)?;
    Ok(PlainContract::Option {
        right,
        root,
        month,
        strike,
        underlying,
    })
}

// `:`, the root, `:`, the kind, `:`, the month, and what else an option has.
fn read_contract(cursor: &mut Cursor) -> Result<PlainContract, LegPart>
    ensures { Reads read_contract cursor.old result cursor.new }
{
    cursor.expect(b':', LegPart::Root)?;
    let root = read_root(cursor)?;
    cursor.expect(b':', LegPart::Kind)?;
    let kind = read_letter(cursor, LegPart::Kind)?;
    cursor.expect(b':', LegPart::Month)?;
    let month = read_month(cursor, LegPart::Month)?;
    read_terms(cursor, kind, root, month)
}

// `/` and a number.
fn read_field(cursor: &mut Cursor, part: LegPart) -> Result<u32, LegPart>
    ensures { Reads (read_field part) cursor.old result cursor.new }
{
    cursor.expect(b'/', part)?;
    cursor.number(part)
}

// `/` and each of the reference data in turn.
fn read_own_reference(cursor: &mut Cursor) -> Result<Reference, LegPart>
    ensures { Reads read_own cursor.old result cursor.new }
{
    let core = read_field(cursor, LegPart::Core)?;
    let lot_size = read_field(cursor, LegPart::LotSize)?;
    let tick = read_field(cursor, LegPart::Tick)?;
    cursor.expect(b'/', LegPart::State)?;
    let state = read_letter(cursor, LegPart::State)?;
    let session_end = read_field(cursor, LegPart::SessionEnd)?;
    Ok(Reference {
        core,
        lot_size,
        tick,
        state,
        session_end,
    })
}

// The reference data, or nothing: then it is the market's.
fn read_reference(cursor: &mut Cursor, market: &Reference) -> Result<Reference, LegPart>
    ensures { Reads (read_reference market.now) cursor.old result cursor.new }
{
    if cursor.is_at(b'/') {
        read_own_reference(cursor)
    } else {
        Ok(*market)
    }
}

// A leg, whatever follows it.
fn read_parts(cursor: &mut Cursor, market: &Reference) -> Result<PlainLeg, LegPart>
    ensures { Reads (read_parts market.now) cursor.old result cursor.new }
{
    let side = read_letter(cursor, LegPart::Side)?;
    let lots = cursor.number(LegPart::Lots)?;
    let contract = read_contract(cursor)?;
    let reference = read_reference(cursor, market)?;
    Ok(PlainLeg {
        contract,
        side,
        lots,
        reference,
    })
}

// A leg, which nothing follows.
#[tactic(auto, unfolding(crate::specs::LegReading::read_leg))]
fn read_whole(text: &[u8], market: &Reference) -> Result<PlainLeg, LegPart>
    ensures { result ≡ read_leg market.now text.now }
{
    let mut cursor = Cursor::new(text);
    let leg = read_parts(&mut cursor, market)?;
    cursor.end()?;
    Ok(leg)
}

// The leg that a text spells, or the first part that cannot be read. Where the text leaves the reference data out, that is the market's.
pub fn read_leg(text: &[u8], market: &Reference) -> Result<PlainLeg, LegPart>
    ensures value { result ≡ read_leg market.now text.now }
    ensures spelled { (leg : PlainLeg) → (result ≡ Ok leg → Spells market.now leg text.now) × (Spells market.now leg text.now → result ≡ Ok leg) }
    ensures back { (leg : Leg) → leg.ratio < 2 ^ 32 → text.now ≡ leg_text leg → result ≡ Ok (handed_back market.now leg) }
{
    read_whole(text, market)
}
