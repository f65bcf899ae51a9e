// Each line of the list that speaks of one leg, and the first leg of which it is true.
ghost use Rattle.std.specs.Prelude.{◌≡◌, ◌+◌, ◌<◌, ◌≤◌, [], ◌∷◌, ◌++◌, length, Decides, MatchResult};
ghost use Rattle.contracts.specs.Plain.{LegInRange, ReferenceInRange};
ghost use Rattle.tickets.specs.Lines.{Holds, Nowhere, First, Repeats, Halts};

use crate::refusal::{LegLine, TicketRefusal};
use contracts::contract::Contract;
use contracts::plain::{PlainLeg, Reference, State};

fn reference_in_range(reference: &Reference) -> bool
    ensures { Decides result (ReferenceInRange reference.now) }
{
    (1..=99).contains(&reference.core)
        && (1..=1_000_000).contains(&reference.lot_size)
        && (1..=1_000_000).contains(&reference.tick)
        && (30..=1_439).contains(&reference.session_end)
}

fn in_range(leg: &PlainLeg) -> bool
    ensures { Decides result (LegInRange leg.now) }
{
    Contract::try_from(leg.contract).is_ok()
        && (1..=9_999).contains(&leg.lots)
        && reference_in_range(&leg.reference)
}

// Whether an earlier leg has the instrument of this one.
fn repeats(earlier: &[PlainLeg], leg: &PlainLeg) -> bool
    ensures { Decides result (Repeats (earlier.now ++ leg.now ∷ []) (length earlier.now)) }
{
    earlier.iter().any(|other| other.contract == leg.contract)
}

// State A counts like T.
fn halted(state: State) -> bool
    ensures { Decides result (Halts state) }
{
    matches!(state, State::Suspended | State::Forbidden)
}

// Whether a line is true of a leg that stands behind the earlier ones. A line is named in the refusal too, so it is an enum and no closure.
#[tactic(auto, using(crate::proofs::Behind::own_place, crate::proofs::Behind::first_place))]
fn holds(line: LegLine, minute: u32, earlier: &[PlainLeg], leg: &PlainLeg) -> bool
    ensures { Decides result (Holds line minute (earlier.now ++ leg.now ∷ []) (length earlier.now)) }
{
    let first = earlier.first().unwrap_or(leg).reference;
    let own = leg.reference;
    match line {
        LegLine::Range => !in_range(leg),
        LegLine::Repeat => repeats(earlier, leg),
        LegLine::Core => own.core != first.core,
        LegLine::LotOrTick => own.lot_size != first.lot_size || own.tick != first.tick,
        LegLine::Halted => halted(own.state),
        LegLine::Late => minute > own.session_end.saturating_sub(30),
    }
}

// Refuses where a line is true of a leg, and tells the first such leg: a loop with the leg's index.
pub(crate) fn refuse(line: LegLine, minute: u32, legs: &[PlainLeg]) -> Result<(), TicketRefusal>
    ensures { MatchResult result
        (λ _. Nowhere line minute legs.now)
        (λ e. First line minute legs.now e) }
{
    for (i, leg) in legs.iter().enumerate() {
        if holds(line, minute, &legs[..i], leg) {
            return Err(TicketRefusal::Leg { line, leg: i + 1 });
        }
    }
    Ok(())
}
