// A row of at most N legs, seen as the list of them.
ghost use Rattle.std.specs.Prelude.{◌≡◌, [], ◌∷◌, ◌++◌, take};
ghost use Rattle.tickets.specs.Filled.{blank_leg};
ghost use Rattle.tickets.specs.Lines.{no_leg};

use contracts::contract::Contract;
use contracts::leg::Leg;
use contracts::plain::{PlainContract, PlainLeg, PlainMonth, PlainRoot, Reference, Side, State};
use contracts::root::Root;
use keys::month::Month;
use std::alloc::AllocError;
use std::marker::Model;

// What stands in the places past the legs.
pub trait Blank: Copy {
    ghost blank: { Self };

    fn blank() -> Self
        ensures { result ≡ blank };
}

// N places and a count: a ticket is `Copy` and takes nothing from the heap.
pub struct Row<T: Blank, const N: usize> {
    legs: [T; N],
    count: usize,
}

impl<T: Blank, const N: usize> Model for Row<T, N> {
    ghost use Rattle.std.specs.Prelude.{◌≡◌, ◌≤◌, List, length, take};
    ghost use Rattle.std.proofs.Common.{sym};
    ghost use Rattle.tickets.specs.Filled.{filled, counted};

    ghost Value = { List T };

    ghost view = { λ r. take r.count r.legs };

    ghost invariant = { λ r. (r.count ≤ N) × (r.legs ≡ filled N T.blank (take r.count r.legs)) };

    ghost inverse = { λ xs. record { legs = filled N T.blank xs; count = length xs } };

    ghost inverse_ok = { λ a h i. record { legs = sym h.1 i; count = counted N T.blank a.count a.legs h.0 h.1 i } };
}

// By hand: what a derive owes of a generic row was not found.
impl<T: Blank, const N: usize> Clone for Row<T, N> {
    ghost is_clone = { λ x y. y ≡ x };

    fn clone(&self) -> Result<Row<T, N>, AllocError> {
        Ok(*self)
    }
}

impl<T: Blank, const N: usize> Copy for Row<T, N> {}

impl<T: Blank, const N: usize> Row<T, N> {
    pub fn new() -> Row<T, N>
        ensures { result ≡ [] }
    {
        Row {
            legs: [T::blank(); N],
            count: 0,
        }
    }

    // The first of N places as legs, as many as are counted; the places past them are made blank.
    pub fn of(places: [T; N], count: usize) -> Row<T, N>
        ensures { result ≡ take count places }
    {
        let count = count.min(N);
        let mut legs = places;
        for place in count..N {
            legs[place] = T::blank();
        }
        Row { legs, count }
    }

    // One leg more; one past the last place is not kept.
    pub fn keep(&mut self, leg: T)
        ensures { self.new ≡ take N (self.old ++ leg ∷ []) }
    {
        if self.count < N {
            self.legs[self.count] = leg;
            self.count += 1;
        }
    }

    pub fn as_slice(&self) -> &[T]
        ensures { result.now ≡ self.now }
    {
        &self.legs[..self.count]
    }
}

impl Blank for Leg {
    ghost blank = { blank_leg };

    // By a call: copied in, its constants would part each leg of a row into single letters.
    #[inline(never)]
    fn blank() -> Leg {
        Leg {
            contract: Contract::Future {
                root: Root {
                    first: b'A',
                    second: b'A',
                    third: b'A',
                },
                month: Month {
                    year: 2000,
                    month: 1,
                },
            },
            side: Side::Bought,
            ratio: 0,
        }
    }
}

impl Blank for PlainLeg {
    ghost blank = { no_leg };

    fn blank() -> PlainLeg {
        PlainLeg {
            contract: PlainContract::Future {
                root: PlainRoot {
                    first: 0,
                    second: 0,
                    third: 0,
                },
                month: PlainMonth { year: 0, month: 0 },
            },
            side: Side::Bought,
            lots: 0,
            reference: Reference {
                core: 0,
                lot_size: 0,
                tick: 0,
                state: State::Trading,
                session_end: 0,
            },
        }
    }
}
