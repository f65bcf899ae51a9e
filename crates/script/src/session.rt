// A session: the lines of a script, answered one by one.
ghost use Rattle.std.specs.Prelude.{◌≡◌, Ok, Some};
ghost use Rattle.script.specs.Answers.{opening_market, Checked, AnswerTo, Answered};

use crate::answer::Answer;
use crate::line::{Line, Trouble};
use crate::read::read_line;
use contracts::plain::{PlainLeg, Reference, State};
use tickets::check::check;
use tickets::fault::Fault;
use tickets::ticket::Ticket;

// The market is the reference data of a leg that leaves its own out.
#[derive(Clone, Copy)]
pub struct Session {
    pub(crate) market: Reference,
}

// The ticket, or the one fault that every refusal comes to.
fn checked(minute: u32, legs: &[PlainLeg]) -> Result<Ticket, Fault>
    ensures { Checked minute legs.now result }
{
    Ok(check(minute, legs)?)
}

impl Session {
    pub fn new() -> Session
        ensures { result.market ≡ opening_market }
    {
        Session {
            market: Reference {
                core: 1,
                lot_size: 1,
                tick: 1,
                state: State::Trading,
                session_end: 1_439,
            },
        }
    }

    // The answer to a call, whose market holds from here on.
    fn obey(&mut self, line: Line) -> Answer
        ensures { AnswerTo self.old.market (Ok (Some line)) (Some (Ok result)) self.new.market }
    {
        match line {
            Line::Market(market) => {
                self.market = market;
                Answer::Market
            }
            Line::Ticket { minute, legs } => Answer::Ticket(checked(minute, legs.as_slice())),
        }
    }

    // The answer to a line, or none where the line is passed over.
    pub fn answer(&mut self, line: &[u8]) -> Option<Result<Answer, Trouble>>
        ensures { Answered self.old.market line.now result self.new.market }
    {
        match read_line(line, &self.market) {
            Ok(None) => None,
            Ok(Some(line)) => Some(Ok(self.obey(line))),
            Err(trouble) => Some(Err(trouble)),
        }
    }
}
