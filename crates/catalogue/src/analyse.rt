// The analysis of a ticket over a catalogue: its type, and how its legs play the roles of the first entry that fits.
ghost use Rattle.std.specs.Prelude.{◌≡◌, Err};
ghost use Rattle.tickets.specs.Refusals.{ticket_fault};
ghost use Rattle.tickets.specs.Refused.{Refused, Clear, TicketOf};
ghost use Rattle.tickets.specs.declared.refusal.TicketRefusal.{TicketRefusal};
ghost use Rattle.tickets.specs.declared.ticket.Ticket.{Ticket};
ghost use Rattle.catalogue.specs.Analysis.{held, outcome, refused_with, analysis_of, Analysed, Nameless};
ghost use Rattle.catalogue.specs.Entries.{numbered};
ghost use Rattle.catalogue.specs.Refusals.{catalogue_fault};
ghost use Rattle.catalogue.specs.Rows.{direction_number};
ghost use Rattle.catalogue.specs.Same.{SameName};
ghost use Rattle.catalogue.specs.declared.refusal.CatalogueRefusal.TheVariants.{NoEntryFits};

use crate::catalogue::Catalogue;
use crate::search::{Fit, search};
use crate::strategy::StrategyType;
use contracts::plain::PlainLeg;
use tickets::check::check;
use tickets::fault::Fault;
use tickets::ticket::Ticket;

// Leaves the type and the seating of a fit in the two places, and tells the rest.
fn tell<C: Catalogue>(
    catalogue: &C,
    ticket: &Ticket,
    fit: &Fit,
    strategy: &mut StrategyType,
    seating: &mut [u8; 4],
) -> (usize, u8, u32)
    ensures answer { result ≡ (fit.now.entry, direction_number fit.now.direction, ticket.now.scale) }
    ensures named { strategy.new ≡ (numbered (C.entries catalogue.now) fit.now.entry).type }
    ensures seated { seating.new ≡ fit.now.seating }
{
    *strategy = catalogue.type_of(fit.entry);
    *seating = fit.seating;
    (fit.entry, fit.direction.number(), ticket.scale())
}

// The entry, the direction (1 or 2) and the scale; the type and the seating are left in the two places. Plain numbers and lent places are the form in which a gateway takes an analysis.
pub fn analyse<C: Catalogue>(
    catalogue: &C,
    minute: u32,
    legs: &[PlainLeg],
    strategy: &mut StrategyType,
    seating: &mut [u8; 4],
) -> Result<(usize, u8, u32), Fault>
    ensures refused { (e : TicketRefusal) → Refused minute legs.now e →
        outcome result strategy.new seating.new ≡ refused_with (ticket_fault e) (held strategy.old seating.old) }
    ensures answered { (t : Ticket) → Clear minute legs.now → TicketOf legs.now t →
        outcome result strategy.new seating.new ≡ analysis_of (C.entries catalogue.now) t (held strategy.old seating.old) }
    ensures named { Analysed (C.entries catalogue.now) minute legs.now (held strategy.old seating.old) result (held strategy.new seating.new) }
    ensures untyped { (result ≡ Err (catalogue_fault NoEntryFits) → Nameless (C.entries catalogue.now) minute legs.now)
        × (Nameless (C.entries catalogue.now) minute legs.now → result ≡ Err (catalogue_fault NoEntryFits)) }
    ensures same_strategy { SameName (C.entries catalogue.now) minute legs.now result (held strategy.new seating.new) }
{
    let ticket = check(minute, legs)?;
    let fit = search(catalogue, &ticket)?;
    Ok(tell(catalogue, &ticket, &fit, strategy, seating))
}
