// Examples of each kind's formula.
use formulas::factors::Factors;
use formulas::figure::Figure;
use formulas::kinds::{energy_bid, energy_only_offer, point_to_point, three_part_offer};
use market::curve::Curve;
use market::step::Step;
use std::test::Fail;

#[test]
fn energy_bids(rt: HostRuntime) -> Result<(), Fail> {
    let f = Factors::make(60, 20, 100)?;
    let d = Figure { cents: 4000 };
    // A is 4000: 100 · (100 · 4000 + 60 · 1000)
    let curve = Curve::bid(&[Step {
        quantity: 100,
        price: 5000,
    }])?;
    assert_eq!(rt; energy_bid(&curve, f, d), 46_000_000);
    let free = Curve::bid(&[Step {
        quantity: 100,
        price: 0,
    }])?;
    assert_eq!(rt; energy_bid(&free, f, d), 0);
    // the greatest over the steps: 100 · 460,000 against 300 · 100 · 4000
    let steps = Curve::bid(&[
        Step {
            quantity: 100,
            price: 5000,
        },
        Step {
            quantity: 300,
            price: 4000,
        },
    ])?;
    assert_eq!(rt; energy_bid(&steps, f, d), 120_000_000);
    Ok(())
}

#[test]
fn energy_only_offers(rt: HostRuntime) -> Result<(), Fail> {
    let f = Factors::make(60, 20, 100)?;
    let a = Figure { cents: 3000 };
    let s = Figure { cents: 800 };
    let curve = Curve::offer(&[Step {
        quantity: 50,
        price: 3000,
    }])?;
    // 100 · 800 · 50 − 20 · 2500 · 50
    assert_eq!(rt;
        energy_only_offer(&curve, f, a, Figure { cents: 2500 }, s),
        1_500_000
    );
    // 100 · 800 · 50 + 100 · 400 · 50
    assert_eq!(rt;
        energy_only_offer(&curve, f, a, Figure { cents: -400 }, s),
        6_000_000
    );
    assert_eq!(rt;
        energy_only_offer(&curve, f, a, Figure { cents: 0 }, s),
        4_000_000
    );
    // above a, only what is added whatever the price
    let dear = Curve::offer(&[Step {
        quantity: 50,
        price: 3001,
    }])?;
    assert_eq!(rt;
        energy_only_offer(&dear, f, a, Figure { cents: 2500 }, s),
        4_000_000
    );
    Ok(())
}

#[test]
fn three_part_offers(rt: HostRuntime) -> Result<(), Fail> {
    let y = Figure { cents: 2000 };
    let z = Figure { cents: 2500 };
    // −100 · 2500 · 50, and the block above y adds nothing
    let curve = Curve::offer(&[
        Step {
            quantity: 50,
            price: 2000,
        },
        Step {
            quantity: 90,
            price: 2001,
        },
    ])?;
    assert_eq!(rt; three_part_offer(&curve, y, z), -12_500_000);
    Ok(())
}

#[test]
fn point_to_point_bids(rt: HostRuntime) -> Result<(), Fail> {
    let w = Figure { cents: 500 };
    // 100 · 100 · (300 + 500) − 90 · 300 · 60
    let curve = Curve::bid(&[Step {
        quantity: 100,
        price: 300,
    }])?;
    assert_eq!(rt; point_to_point(&curve, w, 60), Some(6_380_000));
    assert_eq!(rt; point_to_point(&curve, w, 101), None);
    // 100 · 100 · (0 + 500)
    let paid = Curve::bid(&[Step {
        quantity: 100,
        price: -300,
    }])?;
    assert_eq!(rt; point_to_point(&paid, w, 60), Some(5_000_000));
    Ok(())
}

#[test]
fn factors_in_range(rt: HostRuntime) {
    assert!(rt; Factors::make(100, 100, 100).is_ok());
    assert!(rt; Factors::make(101, 0, 0).is_err());
    assert!(rt; Factors::make(0, 101, 0).is_err());
    assert!(rt; Factors::make(0, 0, 101).is_err());
}
