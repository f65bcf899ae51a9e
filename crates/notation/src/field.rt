// A number and a state that stand alone.
ghost use Rattle.std.specs.Prelude.{◌≡◌, ℕ, Ok};
ghost use Rattle.contracts.specs.declared.plain.State.{State};
ghost use Rattle.notation.specs.LegReading.{whole, read_state};
ghost use Rattle.contracts.specs.Letters.{state_text};
ghost use Rattle.notation.specs.Reading.{number};
ghost use Rattle.notation.specs.Spelling.{Number};

use crate::cursor::Cursor;
use crate::part::LegPart;
use crate::read::read_letter;
use contracts::plain::State;

// The number that a text spells. `part` is told where it does not begin with a number below 2^32, and `End` where something follows it.
pub fn read_number(text: &[u8], part: LegPart) -> Result<u32, LegPart>
    ensures value { result ≡ whole (number part text.now) }
    ensures spelled { (n : ℕ) → (result ≡ Ok n → Number n text.now) × (Number n text.now → result ≡ Ok n) }
{
    let mut cursor = Cursor::new(text);
    let number = cursor.number(part)?;
    cursor.end()?;
    Ok(number)
}

// The state that a letter stands for.
#[tactic(auto, using(crate::proofs::Fields::state_told))]
pub fn read_state(text: &[u8]) -> Result<State, LegPart>
    ensures value { result ≡ whole (read_state text.now) }
    ensures spelled { (s : State) → (result ≡ Ok s → text.now ≡ state_text s) × (text.now ≡ state_text s → result ≡ Ok s) }
{
    let mut cursor = Cursor::new(text);
    let state = read_letter(&mut cursor, LegPart::State)?;
    cursor.end()?;
    Ok(state)
}
