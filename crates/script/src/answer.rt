// What a line is answered with.
ghost use Rattle.std.specs.Prelude.{Some};
ghost use Rattle.script.specs.Texts.{ratios_text, answer_text};

use contracts::leg::Leg;
use std::fmt;
use tickets::fault::Fault;
use tickets::ticket::Ticket;

#[derive(Clone, Copy)]
pub enum Answer {
    Market,
    Ticket(Result<Ticket, Fault>),
}

// The ratios of legs, with a comma before each but the first.
#[derive(Clone, Copy)]
struct Ratios<'a>(&'a [Leg]);

impl<'a> fmt::Display for Ratios<'a> {
    ghost output = { λ ratios. Some (ratios_text ratios.0.now) };

    fn fmt<W: fmt::Write>(&self, f: &mut fmt::Formatter<W>) -> fmt::Result {
        let Some((first, others)) = self.0.split_first() else {
            return Ok(());
        };
        let ratio = first.ratio;
        write!(f, "{ratio}")?;
        for leg in others {
            let ratio = leg.ratio;
            write!(f, ",{ratio}")?;
        }
        Ok(())
    }
}

impl fmt::Display for Answer {
    ghost output = { λ answer. Some (answer_text answer) };

    fn fmt<W: fmt::Write>(&self, f: &mut fmt::Formatter<W>) -> fmt::Result {
        match self {
            Answer::Market => write!(f, "market"),
            Answer::Ticket(Ok(ticket)) => {
                let scale = ticket.scale();
                let ratios = Ratios(ticket.legs());
                write!(f, "ticket {scale} {ratios}")
            }
            Answer::Ticket(Err(fault)) => write!(f, "ticket NO {fault}"),
        }
    }
}
