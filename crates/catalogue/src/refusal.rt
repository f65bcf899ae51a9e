// Why a catalogue refuses: a sheet's records, or a ticket that no entry fits.
ghost use Rattle.std.specs.Prelude.{◌≡◌};
ghost use Rattle.catalogue.specs.Refusals.{catalogue_fault};

use tickets::fault::{Fault, Layer};

// The records of a sheet are numbered from 1.
#[derive(Clone, Copy, PartialEq, Eq)]
pub enum CatalogueRefusal {
    OutOfForm { record: usize },
    TooManyRecords,
    NoEntryFits,
}

// By hand: a derive has no `from_gives`, by which clauses name the fault that a `?` makes.
impl From<CatalogueRefusal> for Fault {
    ghost from_gives = { λ e f. f ≡ catalogue_fault e };

    fn from(e: CatalogueRefusal) -> Fault {
        let (number, place) = match e {
            CatalogueRefusal::OutOfForm { record } => (2, record),
            CatalogueRefusal::TooManyRecords => (3, 0),
            CatalogueRefusal::NoEntryFits => (12, 0),
        };
        Fault {
            number,
            layer: Layer::Catalogue,
            place,
        }
    }
}
