// Ratios of dollars: (bids - offers)/bids brought into 0 to 1, and the factors over some days.
use factors::days::Dollars;
use factors::factor::{default_e1, e3, favourable_e1};
use ranking::fault::NoDays;

// The factor over one day, which is the day's ratio in hundredths. The other ratio has its own, of another type of
// day and another factor.
fn of_day(bids: i64, offers: i64) -> Result<u8, NoDays> {
    default_e1(&[Dollars { bids, offers }])
}

// 2/3 is 66.67 hundredths; 199/200 is 99.5, which goes up; 1/200 is 0.5; 1/201 is 0.4975.
#[test]
fn rounding_goes_up_at_halves(rt: HostRuntime) {
    assert_eq!(rt; of_day(3, 1), Ok(67));
    assert_eq!(rt; of_day(200, 1), Ok(100));
    assert_eq!(rt; of_day(200, 199), Ok(1));
    assert_eq!(rt; of_day(201, 200), Ok(0));
}

// (-1000 + 250)/-1000 is 750/1000.
#[test]
fn bids_below_zero(rt: HostRuntime) {
    assert_eq!(rt; of_day(-1000, -250), Ok(75));
    // (-100 - 50)/-100 is 1.5, and (-100 + 150)/-100 is -0.5.
    assert_eq!(rt; of_day(-100, 50), Ok(100));
    assert_eq!(rt; of_day(-100, -150), Ok(0));
}

// (100 - 150)/100 is -0.5, and (100 + 1)/100 is 1.01.
#[test]
fn brought_into_zero_to_one(rt: HostRuntime) {
    assert_eq!(rt; of_day(100, 150), Ok(0));
    assert_eq!(rt; of_day(100, -1), Ok(100));
    assert_eq!(rt; of_day(100, 100), Ok(0));
    assert_eq!(rt; of_day(100, 0), Ok(100));
}

#[test]
fn no_bids_give_one(rt: HostRuntime) {
    assert_eq!(rt; of_day(0, 0), Ok(100));
    assert_eq!(rt; of_day(0, 2_000_000_000), Ok(100));
    assert_eq!(rt; of_day(0, 2_000_000_001), Err(NoDays));
}

// 4,000,000,000/2,000,000,000 is brought to 1.
#[test]
fn figures_out_of_range_are_absent(rt: HostRuntime) {
    assert_eq!(rt; of_day(2_000_000_000, -2_000_000_000), Ok(100));
    assert_eq!(rt; of_day(-2_000_000_000, 2_000_000_000), Ok(100));
    assert_eq!(rt; of_day(2_000_000_001, 0), Err(NoDays));
    assert_eq!(rt; of_day(-2_000_000_001, 0), Err(NoDays));
    assert_eq!(rt; of_day(1, -2_000_000_001), Err(NoDays));
}

// The ratios 1/n to n/n of n days, on the last day the least.
fn descend(days: &mut [Dollars]) {
    let bids = days.len() as i64;
    for (day, offers) in days.iter_mut().zip(0..bids) {
        *day = Dollars { bids, offers };
    }
}

const BLANK: Dollars = Dollars { bids: 0, offers: 0 };

// 20 days: 95 percent is 19 and 75 percent is 15, so 19/20 and 15/20.
#[test]
fn twenty_days(rt: HostRuntime) {
    let mut days = [BLANK; 20];
    descend(&mut days);
    assert_eq!(rt; default_e1(&days), Ok(95));
    assert_eq!(rt; favourable_e1(&days), Ok(75));
}

// 30 days: 95 percent is 28.5, so 29; 29/30 is 96.67. 75 percent is 22.5, so 23; 23/30 is 76.67.
#[test]
fn thirty_days(rt: HostRuntime) {
    let mut days = [BLANK; 30];
    descend(&mut days);
    assert_eq!(rt; default_e1(&days), Ok(97));
    assert_eq!(rt; favourable_e1(&days), Ok(77));
}

#[test]
fn another_count_is_no_days(rt: HostRuntime) {
    let days = [BLANK; 31];
    assert_eq!(rt; default_e1(&days), Err(NoDays));
    assert_eq!(rt; favourable_e1(&days), Err(NoDays));
    assert_eq!(rt; default_e1(&days[..30]), Ok(100));
    assert_eq!(rt; default_e1(&days[..0]), Err(NoDays));
}

// One ratio is left, 2/3.
#[test]
fn absent_days_are_skipped(rt: HostRuntime) {
    let far = Dollars {
        bids: 1,
        offers: 3_000_000_000,
    };
    assert_eq!(rt;
        favourable_e1(&[far, Dollars { bids: 3, offers: 1 }, far]),
        Ok(67)
    );
    assert_eq!(rt; favourable_e1(&[far, far]), Err(NoDays));
}

#[test]
fn e3_is_one(rt: HostRuntime) {
    assert_eq!(rt; e3(), 100);
}
