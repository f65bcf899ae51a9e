// One word of a record.
ghost use Rattle.std.specs.Prelude.{◌≡◌, ◌<◌, ◌≤◌, length, Some, None, MatchOption, take_while};
ghost use Rattle.notation.specs.Reading.{digit};
ghost use Rattle.records.specs.Terms.{letter, letter_front, numeral, number_front, read_type, read_mark, read_role, compared, stepped, relation_on, read_relation};

use crate::mark::Mark;
use catalogue::strategy::StrategyType;
use contracts::letter::Letter;
use notation::field::read_number;
use notation::part::LegPart;
use sheet::record::{Aspect, Relation, Role};

// What a text of one letter stands for.
fn letter<L: Letter>(text: &[u8]) -> Option<L>
    ensures { result ≡ letter L.meaning text.now }
{
    match *text {
        [letter] => L::from_letter(letter),
        _ => None,
    }
}

// What the letter at the front stands for, and what follows it.
fn letter_front<L: Letter>(text: &[u8]) -> Option<(L, &[u8])>
    ensures { MatchOption result (letter_front L.meaning text.now ≡ None) (λ p. letter_front L.meaning text.now ≡ Some (p.0, p.1.now)) }
{
    let (letter, rest) = text.split_first()?;
    Some((L::from_letter(*letter)?, rest))
}

fn numeral(text: &[u8]) -> Option<u32>
    ensures { result ≡ numeral text.now }
{
    // Which part is told does not matter, since it is dropped.
    read_number(text, LegPart::Lots).ok()
}

// How many digits stand at the front.
fn count_digits(text: &[u8]) -> usize
    ensures { result ≡ length (take_while digit text.now) }
{
    text.iter().take_while(|c| c.is_ascii_digit()).count()
}

// The number at the front, and what follows its digits.
#[tactic(auto, using(crate::proofs::Digits::number_split))]
fn number_front(text: &[u8]) -> Option<(u32, &[u8])>
    ensures { MatchOption result (number_front text.now ≡ None) (λ p. number_front text.now ≡ Some (p.0, p.1.now)) }
{
    let (digits, rest) = text.split_at(count_digits(text));
    Some((numeral(digits)?, rest))
}

// Two characters.
pub(crate) fn read_type(word: &[u8]) -> Option<StrategyType>
    ensures { result ≡ read_type word.now }
{
    match *word {
        [first, second] => Some(StrategyType { first, second }),
        _ => None,
    }
}

pub(crate) fn read_mark(word: &[u8]) -> Option<bool>
    ensures { result ≡ read_mark word.now }
{
    let Mark(marked) = letter(word)?;
    Some(marked)
}

// The side, the ratio and the kind.
pub(crate) fn read_role(word: &[u8]) -> Option<Role>
    ensures { result ≡ read_role word.now }
{
    let (side, rest) = letter_front(word)?;
    let (ratio, rest) = number_front(rest)?;
    let kind = letter(rest)?;
    Some(Role { side, ratio, kind })
}

// The comparison and the second role, after the first.
fn compare(aspect: Aspect, first: u32, text: &[u8]) -> Option<Relation>
    ensures { result ≡ compared aspect first text.now }
{
    let (comparison, rest) = letter_front(text)?;
    let second = numeral(rest)?;
    Some(Relation::Compare {
        aspect,
        first,
        comparison,
        second,
    })
}

// The second and the third role of even steps, after the first `~`.
fn even_steps(aspect: Aspect, first: u32, text: &[u8]) -> Option<Relation>
    ensures { result ≡ stepped aspect first text.now }
{
    let (second, rest) = number_front(text)?;
    let third = numeral(rest.strip_prefix(b"~")?)?;
    Some(Relation::EvenSteps {
        aspect,
        first,
        second,
        third,
    })
}

// What is said of the first role: even steps where a `~` follows, and else a comparison.
fn relation_on(aspect: Aspect, first: u32, text: &[u8]) -> Option<Relation>
    ensures { result ≡ relation_on aspect first text.now }
{
    match text.strip_prefix(b"~") {
        Some(rest) => even_steps(aspect, first, rest),
        None => compare(aspect, first, text),
    }
}

// The aspect, `:`, the first role, and what is said of it.
pub(crate) fn read_relation(word: &[u8]) -> Option<Relation>
    ensures { result ≡ read_relation word.now }
{
    let (aspect, rest) = letter_front(word)?;
    let (first, rest) = number_front(rest.strip_prefix(b":")?)?;
    relation_on(aspect, first, rest)
}
