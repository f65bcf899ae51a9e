// What the program writes.
ghost use Rattle.std.specs.Prelude.{◌≡◌, true, IfOk, string_bytes};
ghost use Rattle.script.specs.Texts.{printable, ErrorText, AnswerText};

use crate::answer::Answer;
use crate::line::{Trouble, What};
use notation::part::LegPart;
use std::alloc::{AllocError, Global};

// What a person is told of a word that cannot be read. The wording is free, so no `Display` has it as its output.
fn what_text(what: What) -> &'static str
    ensures { printable result.now ≡ true }
{
    match what {
        What::UnknownCall => "no call has this name",
        What::MissingWord => "a word is missing here",
        What::SurplusWord => "nothing more may follow",
        What::Minute => "the minute is not a number below 2^32",
        What::Part(part) => part_text(part),
    }
}

fn part_text(part: LegPart) -> &'static str
    ensures { printable result.now ≡ true }
{
    match part {
        LegPart::Side => "the side is not B or S",
        LegPart::Lots => "the lots are not a number below 2^32",
        LegPart::Root => "the root is not ':' and three characters",
        LegPart::Kind => "the kind is not ':' and F, C or P",
        LegPart::Month => "the month is not ':' and digits, '-', digits",
        LegPart::Strike => "the strike is not ':' and a number below 2^32",
        LegPart::Underlying => "the underlying is not '@' and digits, '-', digits",
        LegPart::Core => "the core is not a number below 2^32",
        LegPart::LotSize => "the lot size is not a number below 2^32",
        LegPart::Tick => "the tick is not a number below 2^32",
        LegPart::State => "the state is not T, A, H or X",
        LegPart::SessionEnd => "the session end is not a number below 2^32",
        LegPart::End => "something follows that does not belong there",
    }
}

fn error_text(heap: Global, number: u64, trouble: Trouble) -> Result<String, AllocError>
    ensures { IfOk result (λ s. ErrorText number trouble (string_bytes s)) }
{
    let word = trouble.word;
    let what = what_text(trouble.what);
    format!(in heap; "{number} error word {word}: {what}")
}

// The line that tells an answer, without its line feed.
pub fn answer_text(
    heap: Global,
    number: u64,
    answer: &Result<Answer, Trouble>,
) -> Result<String, AllocError>
    ensures tells { IfOk result (λ s. AnswerText number answer.now (string_bytes s)) }
    ensures one_line { IfOk result (λ s. printable (string_bytes s) ≡ true) }
{
    match answer {
        Ok(answer) => format!(in heap; "{number} {answer}"),
        Err(trouble) => error_text(heap, number, *trouble),
    }
}
