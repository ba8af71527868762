// Examples of curves and submissions, at the edges of their rules.
use market::curve::Curve;
use market::kind::{Figures, Kind};
use market::refusal::Refusal;
use market::step::Step;
use market::submission::Submission;
use market::units::{Price, Tenths};
use std::test::Fail;

const BID: Figures = Figures {
    number: 7,
    qse: 1,
    kind: 1,
    hour: 1,
    source: 5,
    sink: 0,
    claim: 0,
};

const PATH: Figures = Figures {
    number: 7,
    qse: 1,
    kind: 4,
    hour: 1,
    source: 5,
    sink: 6,
    claim: 1,
};

const ONE: [Step; 1] = [Step {
    quantity: 100,
    price: 500,
}];

// The number that making a curve or a submission returns: 0 where it is made.
fn number<T: Drop>(answer: Result<T, Refusal>) -> u8 {
    answer.map_or_else(|refusal| refusal.number(), |_| 0)
}

fn made(figures: Figures, steps: &[Step]) -> u8 {
    number(Submission::make(figures, steps))
}

fn one_step(quantity: Tenths, price: Price) -> u8 {
    made(BID, &[Step { quantity, price }])
}

// Eleven steps whose quantities rise by one.
const RISING: [Step; 11] = [
    Step {
        quantity: 1,
        price: 5,
    },
    Step {
        quantity: 2,
        price: 5,
    },
    Step {
        quantity: 3,
        price: 5,
    },
    Step {
        quantity: 4,
        price: 5,
    },
    Step {
        quantity: 5,
        price: 5,
    },
    Step {
        quantity: 6,
        price: 5,
    },
    Step {
        quantity: 7,
        price: 5,
    },
    Step {
        quantity: 8,
        price: 5,
    },
    Step {
        quantity: 9,
        price: 5,
    },
    Step {
        quantity: 10,
        price: 5,
    },
    Step {
        quantity: 11,
        price: 5,
    },
];

#[test]
fn ten_steps_and_no_more(rt: HostRuntime) {
    assert_eq!(rt; number(Curve::bid(&RISING[0..0])), 13);
    assert_eq!(rt; number(Curve::bid(&RISING[0..1])), 0);
    assert_eq!(rt; number(Curve::bid(&RISING[0..10])), 0);
    assert_eq!(rt; number(Curve::bid(&RISING)), 13);
    assert_eq!(rt; made(BID, &RISING), 13);
}

#[test]
fn steps_in_range(rt: HostRuntime) {
    assert_eq!(rt; one_step(0, 5), 13);
    assert_eq!(rt; one_step(100_000, 5), 0);
    assert_eq!(rt; one_step(100_001, 5), 13);
    assert_eq!(rt; one_step(1, -1_000_000), 0);
    assert_eq!(rt; one_step(1, -1_000_001), 13);
    assert_eq!(rt; one_step(1, 1_000_000), 0);
    assert_eq!(rt; one_step(1, 1_000_001), 13);
}

#[test]
fn bids_fall_and_offers_rise(rt: HostRuntime) {
    let falling = [
        Step {
            quantity: 100,
            price: 500,
        },
        Step {
            quantity: 250,
            price: 400,
        },
    ];
    let rising = [
        Step {
            quantity: 100,
            price: 400,
        },
        Step {
            quantity: 250,
            price: 500,
        },
    ];
    let equal = [
        Step {
            quantity: 100,
            price: 500,
        },
        Step {
            quantity: 100,
            price: 400,
        },
    ];
    assert_eq!(rt; number(Curve::bid(&falling)), 0);
    assert_eq!(rt; number(Curve::offer(&falling)), 13);
    assert_eq!(rt; number(Curve::bid(&rising)), 13);
    assert_eq!(rt; number(Curve::offer(&rising)), 0);
    assert_eq!(rt; number(Curve::bid(&equal)), 13);
}

#[test]
fn figures_in_order_of_tests(rt: HostRuntime) {
    assert_eq!(rt; made(Figures { number: 0, ..BID }, &ONE), 11);
    assert_eq!(rt; made(Figures { qse: 9, ..BID }, &ONE), 11);
    assert_eq!(rt; made(Figures { hour: 24, ..BID }, &ONE), 0);
    assert_eq!(rt; made(Figures { hour: 25, ..BID }, &ONE), 11);
    assert_eq!(rt;
        made(
            Figures {
                hour: 25,
                kind: 5,
                ..BID
            },
            &ONE,
        ),
        11
    );
    assert_eq!(rt; made(Figures { kind: 5, ..BID }, &[]), 12);
    assert_eq!(rt; made(Figures { sink: 6, ..BID }, &ONE), 12);
    assert_eq!(rt; made(Figures { claim: 2, ..BID }, &[]), 12);
}

#[test]
fn paths_have_one_step(rt: HostRuntime) {
    assert_eq!(rt; made(PATH, &ONE), 0);
    assert_eq!(rt; made(PATH, &RISING[0..2]), 12);
    assert_eq!(rt; made(Figures { sink: 5, ..PATH }, &ONE), 12);
    assert_eq!(rt; made(Figures { claim: 2, ..PATH }, &ONE), 12);
}

#[test]
fn a_submission_is_the_one_asked_for(rt: HostRuntime) -> Result<(), Fail> {
    let submission = Submission::make(PATH, &ONE)?;
    assert_eq!(rt; submission.number(), 7);
    assert_eq!(rt;
        submission.kind(),
        Kind::PointToPoint {
            source: 5,
            sink: 6,
            claim: 1,
        }
    );
    assert_eq!(rt; submission.curve().last().quantity, 100);
    Ok(())
}
