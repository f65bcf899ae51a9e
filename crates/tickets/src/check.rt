// The check of a minute and legs: the first refusal of the list that applies, or the ticket.
ghost use Rattle.std.specs.Prelude.{◌≡◌, ℕ, ◌/◌, ◌<◌, IfOk, Err, MatchResult};
ghost use Rattle.contracts.specs.Plain.{plain_contract, ContractInRange};
ghost use Rattle.tickets.specs.Refused.{Refused, Clear, TicketOf};
ghost use Rattle.tickets.specs.declared.refusal.TicketRefusal.{TicketRefusal};

use crate::lines::refuse;
use crate::refusal::{LegLine, TicketRefusal};
use crate::row::Row;
use crate::scale::scale_of;
use crate::ticket::{Shared, Ticket};
use contracts::contract::Contract;
use contracts::leg::Leg;
use contracts::plain::PlainLeg;

// The lines of the list, in their order.
fn refuse_first(minute: u32, legs: &[PlainLeg]) -> Result<(), TicketRefusal>
    ensures { MatchResult result (λ _. Clear minute legs.now) (λ e. Refused minute legs.now e) }
{
    if minute > 1_439 {
        return Err(TicketRefusal::Minute);
    }
    if !(2..=4).contains(&legs.len()) {
        return Err(TicketRefusal::LegCount);
    }
    for line in LegLine::ALL {
        refuse(line, minute, legs)?;
    }
    Ok(())
}

fn kept(leg: &PlainLeg, scale: u32) -> Leg
    requires in_range { (ContractInRange leg.now.contract → ⊥) → ⊥ }
    requires some { 0 < scale }
    ensures contract { plain_contract result.contract ≡ leg.now.contract }
    ensures side { result.side ≡ leg.now.side }
    ensures ratio { result.ratio ≡ leg.now.lots / scale }
{
    let Ok(contract) = Contract::try_from(leg.contract) else {
        unreachable!();
    };
    Leg {
        contract,
        side: leg.side,
        ratio: leg.lots / scale,
    }
}

fn accept(legs: &[PlainLeg]) -> Ticket
    requires { (minute : ℕ) × Clear minute legs.now }
    ensures { TicketOf legs.now result }
{
    let scale = scale_of(legs);
    let mut row = Row::new();
    for leg in legs {
        row.keep(kept(leg, scale));
    }
    let reference = legs[0].reference;
    Ticket {
        legs: row,
        scale,
        shared: Shared {
            core: reference.core,
            lot_size: reference.lot_size,
            tick: reference.tick,
        },
    }
}

// Accepts a minute and any number of legs, or refuses them. The two come apart, as a gateway has them.
pub fn check(minute: u32, legs: &[PlainLeg]) -> Result<Ticket, TicketRefusal>
    ensures refused { (e : TicketRefusal) → (result ≡ Err e → Refused minute legs.now e) × (Refused minute legs.now e → result ≡ Err e) }
    ensures accepted { IfOk result (λ t. Clear minute legs.now × TicketOf legs.now t) }
{
    refuse_first(minute, legs)?;
    Ok(accept(legs))
}
