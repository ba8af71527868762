// Ratios of quantities: the lesser of bids and offers over offers, and the factor over some days.
use factors::days::Quantities;
use factors::factor::{default_e2, favourable_e2};
use ranking::fault::NoDays;

// The factor over one day, which is the day's ratio in hundredths. The other ratio has its own, of another type of
// day and another factor.
fn of_day(bids: i64, offers: i64) -> Result<u8, NoDays> {
    favourable_e2(&[Quantities { bids, offers }])
}

// 5/8 is 62.5 hundredths, which goes up; 1/3 is 33.33; 9/8 counts as 8/8.
#[test]
fn lesser_over_offers(rt: HostRuntime) {
    assert_eq!(rt; of_day(5, 8), Ok(63));
    assert_eq!(rt; of_day(1, 3), Ok(33));
    assert_eq!(rt; of_day(9, 8), Ok(100));
    assert_eq!(rt; of_day(0, 8), Ok(0));
}

#[test]
fn no_offers_give_zero(rt: HostRuntime) {
    assert_eq!(rt; of_day(5, 0), Ok(0));
    assert_eq!(rt; of_day(0, 0), Ok(0));
}

#[test]
fn figures_out_of_range_are_absent(rt: HostRuntime) {
    assert_eq!(rt; of_day(2_000_000_000, 2_000_000_000), Ok(100));
    assert_eq!(rt; of_day(2_000_000_001, 5), Err(NoDays));
    assert_eq!(rt; of_day(5, 2_000_000_001), Err(NoDays));
    assert_eq!(rt; of_day(-1, 5), Err(NoDays));
    assert_eq!(rt; of_day(5, -1), Err(NoDays));
}

// 5 days: 25 percent is 1.25, so 2. The ratios in order are 1/10, 3/10, 4/10, 8/10, 1: the second is 3/10.
#[test]
fn twenty_fifth_of_five(rt: HostRuntime) {
    let days = [
        Quantities {
            bids: 4,
            offers: 10,
        },
        Quantities {
            bids: 3,
            offers: 10,
        },
        Quantities {
            bids: 12,
            offers: 10,
        },
        Quantities {
            bids: 1,
            offers: 10,
        },
        Quantities {
            bids: 8,
            offers: 10,
        },
    ];
    assert_eq!(rt; favourable_e2(&days), Ok(30));
    // 4 days: 25 percent is 1, so the least, 1/10.
    assert_eq!(rt; favourable_e2(&days[..4]), Ok(10));
}

#[test]
fn another_count_is_no_days(rt: HostRuntime) {
    let days = [Quantities { bids: 1, offers: 1 }; 31];
    assert_eq!(rt; favourable_e2(&days), Err(NoDays));
    assert_eq!(rt; favourable_e2(&days[..30]), Ok(100));
    assert_eq!(rt; favourable_e2(&days[..0]), Err(NoDays));
}

#[test]
fn default_is_zero(rt: HostRuntime) {
    assert_eq!(rt; default_e2(), 0);
}
