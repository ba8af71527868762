// Pages and flat records.
use crate::sample::two_points;
use market::refusal::Refusal;
use prices::fault::{Label, RecordFault};
use prices::flat::Flat;
use prices::page::Page;
use prices::record::Record;
use std::test::Fail;

#[test]
fn page_reads_its_cells(rt: HostRuntime) {
    let bytes = two_points();
    let page = Page::new(&bytes, Label::DayAhead);
    assert_eq!(rt; page.ask(1, 1, 1), Ok(Some(2_500)));
    assert_eq!(rt; page.ask(1, 1, 3), Ok(Some(1_000_000)));
    assert_eq!(rt; page.ask(1, 2, 1), Ok(Some(-1_000_000)));
    assert_eq!(rt; page.ask(2, 1, 1), Ok(Some(0)));
    assert_eq!(rt; page.ask(2, 24, 30), Ok(Some(-75)));
}

#[test]
fn page_has_nothing(rt: HostRuntime) {
    let bytes = two_points();
    let page = Page::new(&bytes, Label::DayAhead);
    assert_eq!(rt; page.ask(1, 1, 2), Ok(None));
    assert_eq!(rt; page.ask(1, 2, 2), Ok(None));
    assert_eq!(rt; page.ask(1, 0, 1), Ok(None));
    assert_eq!(rt; page.ask(1, 25, 1), Ok(None));
    assert_eq!(rt; page.ask(1, 1, 0), Ok(None));
    assert_eq!(rt; page.ask(1, 1, 31), Ok(None));
}

#[test]
fn page_faults(rt: HostRuntime) {
    let bytes = two_points();
    let page = Page::new(&bytes, Label::RealTime);
    assert_eq!(rt;
        page.ask(0, 7, 1),
        Err(RecordFault {
            label: Label::RealTime,
            point: 0,
            hour: 7,
        })
    );
    assert_eq!(rt;
        page.ask(3, 99, 99),
        Err(RecordFault {
            label: Label::RealTime,
            point: 3,
            hour: 99,
        })
    );
}

#[test]
fn flat_holds_one_price(rt: HostRuntime) -> Result<(), Fail> {
    let flat = Flat::make(-1_000_000)?;
    assert_eq!(rt; flat.ask(0, 1, 1), Ok(Some(-1_000_000)));
    assert_eq!(rt; flat.ask(65_535, 24, 30), Ok(Some(-1_000_000)));
    assert_eq!(rt; flat.ask(1, 25, 30), Ok(None));
    assert_eq!(rt; Flat::make(1_000_001).err(), Some(Refusal::OutOfRange));
    Ok(())
}
