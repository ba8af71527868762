// Spreads, paths and floors, and piles of them.
use crate::sample::two_points;
use prices::fault::{Label, RecordFault};
use prices::flat::Flat;
use prices::floor::Floor;
use prices::page::Page;
use prices::path::Path;
use prices::record::Record;
use prices::spread::Spread;
use std::test::Fail;

#[test]
fn spread_keeps_its_range(rt: HostRuntime) -> Result<(), Fail> {
    let high = Flat::make(1_000_000)?;
    let low = Flat::make(-1_000_000)?;
    let up = Spread::new(high, low);
    let down = Spread::new(low, high);
    assert_eq!(rt; down.ask(1, 1, 1), Ok(Some(-2_000_000)));
    // 2,000,000 minus -2,000,000 is the most that there can be.
    assert_eq!(rt; Spread::new(up, down).ask(1, 1, 1), Ok(Some(4_000_000)));
    // 3,000,000 minus -2,000,000 is more.
    let three = Spread::new(up, low);
    assert_eq!(rt; three.ask(1, 1, 1), Ok(Some(3_000_000)));
    assert_eq!(rt; Spread::new(three, down).ask(1, 1, 1), Ok(None));
    Ok(())
}

#[test]
fn spread_faults_in_order(rt: HostRuntime) {
    let bytes = two_points();
    let ahead = Page::new(&bytes, Label::DayAhead);
    let one_point = [0; 2880];
    let real = Page::new(&one_point, Label::RealTime);
    assert_eq!(rt;
        Spread::new(real, ahead).ask(3, 5, 1),
        Err(RecordFault {
            label: Label::RealTime,
            point: 3,
            hour: 5,
        })
    );
    assert_eq!(rt;
        Spread::new(ahead, real).ask(3, 5, 1),
        Err(RecordFault {
            label: Label::DayAhead,
            point: 3,
            hour: 5,
        })
    );
    assert_eq!(rt;
        Spread::new(ahead, real).ask(2, 5, 1),
        Err(RecordFault {
            label: Label::RealTime,
            point: 2,
            hour: 5,
        })
    );
}

#[test]
fn path_fixes_its_points(rt: HostRuntime) {
    let bytes = two_points();
    let page = Page::new(&bytes, Label::DayAhead);
    // 2,500 at point 1, and 0 at point 2.
    assert_eq!(rt; Path::new(page, 1, 2).ask(7, 1, 1), Ok(Some(2_500)));
    assert_eq!(rt; Path::new(page, 2, 1).ask(1, 1, 1), Ok(Some(-2_500)));
    assert_eq!(rt; Path::new(page, 1, 2).ask(1, 1, 2), Ok(None));
    assert_eq!(rt;
        Path::new(page, 3, 9).ask(1, 4, 1),
        Err(RecordFault {
            label: Label::DayAhead,
            point: 3,
            hour: 4,
        })
    );
    assert_eq!(rt;
        Path::new(page, 1, 9).ask(1, 4, 1),
        Err(RecordFault {
            label: Label::DayAhead,
            point: 9,
            hour: 4,
        })
    );
}

#[test]
fn floor_turns_negatives_into_zero(rt: HostRuntime) -> Result<(), Fail> {
    assert_eq!(rt; Floor::new(Flat::make(-75)?).ask(1, 1, 1), Ok(Some(0)));
    assert_eq!(rt; Floor::new(Flat::make(75)?).ask(1, 1, 1), Ok(Some(75)));
    assert_eq!(rt; Floor::new(Flat::make(75)?).ask(1, 1, 31), Ok(None));
    Ok(())
}

#[test]
fn floor_over_spread_of_page_and_flat(rt: HostRuntime) -> Result<(), Fail> {
    let bytes = two_points();
    let page = Page::new(&bytes, Label::DayAhead);
    let pile = Floor::new(Spread::new(page, Flat::make(2_000)?));
    // 2,500 minus 2,000.
    assert_eq!(rt; pile.ask(1, 1, 1), Ok(Some(500)));
    // -75 minus 2,000 is negative.
    assert_eq!(rt; pile.ask(2, 24, 30), Ok(Some(0)));
    // The page has nothing.
    assert_eq!(rt; pile.ask(1, 1, 2), Ok(None));
    assert_eq!(rt;
        pile.ask(3, 24, 30),
        Err(RecordFault {
            label: Label::DayAhead,
            point: 3,
            hour: 24,
        })
    );
    Ok(())
}
