// Examples of the protocol rule over flat records and pages.
use exposure::fault::RuleFault;
use exposure::protocol::Protocol;
use exposure::rule::Rule;
use formulas::factors::Factors;
use market::kind::Figures;
use market::step::Step;
use market::submission::Submission;
use prices::fault::{Label, RecordFault};
use prices::flat::Flat;
use prices::page::Page;
use std::test::Fail;

// A submission of one step for hour 7, at point 2 or from point 2 to a sink. The kind is the figure as it comes.
fn submission(kind: u8, sink: u16, quantity: u32, price: i32) -> Result<Submission, Fail> {
    let figures = Figures {
        number: 1,
        qse: 1,
        kind,
        hour: 7,
        source: 2,
        sink,
        claim: 0,
    };
    Ok(Submission::make(figures, &[Step { quantity, price }])?)
}

#[test]
fn kinds_over_flat_records(rt: HostRuntime) -> Result<(), Fail> {
    let mut rule = Protocol {
        day_ahead: Flat::make(4000)?,
        real_time: Flat::make(4800)?,
        factors: Factors::make(60, 20, 100)?,
    };
    // d is 4000: 100 · (100 · 4000 + 60 · 1000)
    assert_eq!(rt;
        rule.value(&submission(1, 0, 100, 5000)?, 0),
        Ok(46_000_000)
    );
    // a and b are 4000, s is 800: 100 · 800 · 50 − 20 · 4000 · 50
    assert_eq!(rt; rule.value(&submission(2, 0, 50, 4000)?, 0), Ok(0));
    // y and z are 4000: −100 · 4000 · 50
    assert_eq!(rt;
        rule.value(&submission(3, 0, 50, 4000)?, 0),
        Ok(-20_000_000)
    );
    // a flat record's path is 0: 100 · 100 · 300 − 90 · 300 · 60
    assert_eq!(rt; rule.value(&submission(4, 3, 100, 300)?, 60), Ok(1_380_000));
    Ok(())
}

#[test]
fn a_cover_above_the_quantity_comes_first(rt: HostRuntime) -> Result<(), Fail> {
    let empty: &[u8] = &[];
    let page = Page::new(empty, Label::DayAhead);
    let mut rule = Protocol {
        day_ahead: page,
        real_time: page,
        factors: Factors::make(60, 20, 100)?,
    };
    assert_eq!(rt;
        rule.value(&submission(1, 0, 100, 5000)?, 101),
        Err(RuleFault::CoverAboveQuantity)
    );
    Ok(())
}

#[test]
fn unknown_points_keep_label_point_and_hour(rt: HostRuntime) -> Result<(), Fail> {
    let cells = [0u8; 2880];
    let ahead = Page::new(&cells, Label::DayAhead);
    let real = Page::new(&cells, Label::RealTime);
    let mut rule = Protocol {
        day_ahead: ahead,
        real_time: real,
        factors: Factors::make(60, 20, 100)?,
    };
    let fault = RecordFault {
        label: Label::DayAhead,
        point: 2,
        hour: 7,
    };
    assert_eq!(rt;
        rule.value(&submission(1, 0, 100, 5000)?, 0),
        Err(RuleFault::UnknownPoint(fault))
    );
    let on_path = RecordFault {
        label: Label::RealTime,
        point: 2,
        hour: 7,
    };
    assert_eq!(rt;
        rule.value(&submission(4, 1, 100, 300)?, 0),
        Err(RuleFault::UnknownPoint(on_path))
    );
    Ok(())
}

#[test]
fn days_without_prices_name_the_letter(rt: HostRuntime) -> Result<(), Fail> {
    // every cell is 0x7f7f7f7f, above the range of prices
    let cells = [0x7fu8; 5760];
    let page = Page::new(&cells, Label::DayAhead);
    let mut rule = Protocol {
        day_ahead: page,
        real_time: Flat::make(0)?,
        factors: Factors::make(60, 20, 100)?,
    };
    assert_eq!(rt;
        rule.value(&submission(1, 0, 100, 5000)?, 0),
        Err(RuleFault::NoDays {
            letter: 'd',
            point: 2,
            hour: 7,
        })
    );
    assert_eq!(rt;
        rule.value(&submission(3, 0, 100, 5000)?, 0),
        Err(RuleFault::NoDays {
            letter: 'y',
            point: 2,
            hour: 7,
        })
    );
    let mut path = Protocol {
        day_ahead: Flat::make(0)?,
        real_time: page,
        factors: Factors::make(60, 20, 100)?,
    };
    assert_eq!(rt;
        path.value(&submission(2, 0, 100, 5000)?, 0),
        Err(RuleFault::NoDays {
            letter: 's',
            point: 2,
            hour: 7,
        })
    );
    assert_eq!(rt;
        path.value(&submission(4, 1, 100, 5000)?, 0),
        Err(RuleFault::NoDays {
            letter: 'u',
            point: 2,
            hour: 7,
        })
    );
    Ok(())
}
