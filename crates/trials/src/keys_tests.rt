// Rows of keys, and contracts in ladder order.
use contracts::contract::{Contract, Right, Underlying};
use contracts::ladder::same_instrument;
use contracts::root::Root;
use keys::month::Month;
use keys::rows::{even_steps, rising};
use keys::strike::Strike;
use std::test::Fail;

fn strikes(a: u32, b: u32, c: u32) -> Option<[Strike; 3]> {
    Some([Strike::new(a)?, Strike::new(b)?, Strike::new(c)?])
}

fn months(a: u32, b: u32, c: u32) -> Option<[Month; 3]> {
    Some([
        Month::new(2019, a)?,
        Month::new(2019, b)?,
        Month::new(2020, c)?,
    ])
}

#[test]
fn rows_rise_in_even_steps(rt: HostRuntime) -> Result<(), Fail> {
    let Some(even) = strikes(100, 110, 120) else {
        assert!(rt; false);
        return Ok(());
    };
    assert!(rt; rising(&even) && even_steps(&even));
    let Some(uneven) = strikes(100, 110, 121) else {
        assert!(rt; false);
        return Ok(());
    };
    assert!(rt; rising(&uneven) && !even_steps(&uneven));
    let Some(level) = strikes(100, 100, 100) else {
        assert!(rt; false);
        return Ok(());
    };
    assert!(rt; !rising(&level) && even_steps(&level));
    let Some(ends) = strikes(1, 50_000_000, 99_999_999) else {
        assert!(rt; false);
        return Ok(());
    };
    assert!(rt; rising(&ends) && even_steps(&ends));
    let Some(quarters) = months(5, 11, 5) else {
        assert!(rt; false);
        return Ok(());
    };
    assert!(rt; rising(&quarters) && even_steps(&quarters));
    assert!(rt; Strike::new(0).is_none() && Strike::new(100_000_000).is_none());
    assert!(rt; Month::new(1999, 12).is_none() && Month::new(2019, 13).is_none());
    Ok(())
}

fn option(right: Right, strike: u32, underlying: Underlying) -> Option<Contract> {
    Some(Contract::Option {
        right,
        root: Root::new(b'D', b'O', b'L')?,
        month: Month::new(2019, 8)?,
        strike: Strike::new(strike)?,
        underlying,
    })
}

fn ladder() -> Option<[Contract; 5]> {
    let root = Root::new(b'D', b'O', b'L')?;
    let month = Month::new(2019, 9)?;
    Some([
        Contract::Future { root, month },
        option(Right::Call, 3800, Underlying::Spot)?,
        option(Right::Call, 3800, Underlying::Future(month))?,
        option(Right::Call, 3900, Underlying::Spot)?,
        option(Right::Put, 100, Underlying::Spot)?,
    ])
}

#[test]
fn the_ladder_rises(rt: HostRuntime) -> Result<(), Fail> {
    let Some(row) = ladder() else {
        assert!(rt; false);
        return Ok(());
    };
    assert!(rt; rising(&row));
    assert!(rt; same_instrument(&row[1], &row[1]) && !same_instrument(&row[1], &row[2]));
    Ok(())
}
