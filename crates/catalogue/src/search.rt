// The search for the first entry that fits: by entry, then BUY before SELL, then seatings in rising order.
ghost use Rattle.std.specs.Prelude.{◌≡◌};
ghost use Rattle.tickets.specs.Refused.{legs_of};
ghost use Rattle.catalogue.specs.Search.{candidate, fitting, Searched};
ghost use Rattle.catalogue.specs.Seatings.{unpadded, Seats};

use crate::catalogue::Catalogue;
use crate::direction::Direction;
use crate::refusal::CatalogueRefusal;
use crate::seating::{seated, seatings_of};
use tickets::ticket::Ticket;

// How an entry fits a ticket: in a direction, seated so.
#[derive(Clone, Copy)]
pub(crate) struct Fit {
    pub(crate) entry: usize,
    pub(crate) direction: Direction,
    pub(crate) seating: [u8; 4],
}

// Whether an entry fits the ticket in a direction, seated so.
fn fits_so<C: Catalogue>(
    catalogue: &C,
    entry: usize,
    ticket: &Ticket,
    direction: Direction,
    seating: &[u8; 4],
) -> bool
    requires { Seats ticket.now seating.now }
    ensures { result ≡ fitting (C.entries catalogue.now) (legs_of ticket.now) (candidate entry direction (unpadded ticket.now seating.now)) }
{
    let row = seated(ticket, direction, seating);
    catalogue.fits(entry, row.as_slice())
}

pub(crate) fn search<C: Catalogue>(catalogue: &C, ticket: &Ticket) -> Result<Fit, CatalogueRefusal>
    ensures { Searched (C.entries catalogue.now) (legs_of ticket.now) result }
{
    let roles = ticket.legs().len();
    let found = 'search: {
        // A catalogue is asked by the numbers of its entries.
        for entry in 1..=catalogue.count() {
            // No seating fits an entry of another number of roles.
            if catalogue.role_count(entry) != roles {
                continue;
            }
            for direction in Direction::both() {
                for seating in seatings_of(roles) {
                    if fits_so(catalogue, entry, ticket, direction, seating) {
                        break 'search Some(Fit {
                            entry,
                            direction,
                            seating: *seating,
                        });
                    }
                }
            }
        }
        None
    };
    found.ok_or(CatalogueRefusal::NoEntryFits)
}
