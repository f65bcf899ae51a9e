// A leg is read from its text, and written.
use contracts::contract::{Contract, Right, Underlying};
use contracts::leg::Leg;
use contracts::plain::{
    PlainContract, PlainLeg, PlainMonth, PlainRoot, PlainUnderlying, Reference, Side, State,
};
use contracts::root::Root;
use keys::month::Month;
use keys::strike::Strike;
use notation::part::LegPart;
use notation::read::read_leg;
use std::test::Fail;

const MARKET: Reference = Reference {
    core: 7,
    lot_size: 100,
    tick: 5,
    state: State::Auction,
    session_end: 1020,
};

const DOL: PlainRoot = PlainRoot {
    first: b'D',
    second: b'O',
    third: b'L',
};

const AUGUST: PlainMonth = PlainMonth {
    year: 2019,
    month: 8,
};

const SEPTEMBER: PlainMonth = PlainMonth {
    year: 2019,
    month: 9,
};

#[test]
fn texts_are_read(rt: HostRuntime) {
    let future = PlainLeg {
        contract: PlainContract::Future {
            root: DOL,
            month: SEPTEMBER,
        },
        side: Side::Sold,
        lots: 1,
        reference: MARKET,
    };
    assert!(rt; read_leg(b"S1:DOL:F:2019-09", &MARKET) == Ok(future));
    assert!(rt; read_leg(b"S0001:DOL:F:02019-9", &MARKET) == Ok(future));
    let put = PlainLeg {
        contract: PlainContract::Option {
            right: Right::Put,
            root: DOL,
            month: AUGUST,
            strike: 3800,
            underlying: PlainUnderlying::Future(SEPTEMBER),
        },
        side: Side::Bought,
        lots: 2,
        reference: Reference {
            core: 1,
            lot_size: 50_000,
            tick: 50,
            state: State::Trading,
            session_end: 1080,
        },
    };
    assert!(rt; read_leg(b"B2:DOL:P:2019-08:3800@2019-09/1/50000/50/T/1080", &MARKET) == Ok(put));
}

#[test]
fn damage_is_refused(rt: HostRuntime) {
    assert!(rt; read_leg(b"b10:DOL:C:2019-08:3800", &MARKET) == Err(LegPart::Side));
    assert!(rt; read_leg(b"B-1:DOL:C:2019-08:3800", &MARKET) == Err(LegPart::Lots));
    assert!(rt; read_leg(b"B10DOL:C:2019-08:3800", &MARKET) == Err(LegPart::Root));
    assert!(rt; read_leg(b"B10:DOL:C:2019-08:12345678901", &MARKET) == Err(LegPart::Strike));
    assert!(rt; read_leg(b"B10:DOL:C:2019-08:4294967296", &MARKET) == Err(LegPart::Strike));
    assert!(rt;
        read_leg(b"B10:DOL:C:2019-08:3800/1/50000/50/T", &MARKET) == Err(LegPart::SessionEnd)
    );
    assert!(rt; read_leg(b"S1:DOL:F:2019-09 ", &MARKET) == Err(LegPart::End));
}

fn call_on_december() -> Option<Leg> {
    Some(Leg {
        contract: Contract::Option {
            right: Right::Call,
            root: Root::new(b'D', b'O', b'L')?,
            month: Month::new(2019, 8)?,
            strike: Strike::new(3800)?,
            underlying: Underlying::Future(Month::new(2019, 12)?),
        },
        side: Side::Bought,
        ratio: 10,
    })
}

#[test]
fn a_leg_is_written_and_read_back(rt: HostRuntime) -> Result<(), Fail> {
    let Some(leg) = call_on_december() else {
        assert!(rt; false);
        return Ok(());
    };
    let text = leg.to_string(rt.alloc())?;
    assert!(rt; text.as_str() == "B10:DOL:C:2019-08:3800@2019-12");
    assert!(rt; read_leg(text.as_bytes(), &MARKET).is_ok());
    Ok(())
}
