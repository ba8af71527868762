// Each answer is worked out by hand; the comment has the count of elements and the share of them.
use crate::tagged::Tagged;
use ranking::fault::NoDays;
use ranking::percentile::percentile;

// The day of the answer.
fn day_of(answer: Result<Tagged, NoDays>) -> Result<u8, NoDays> {
    answer.map(|element| element.day)
}

const fn of(price: i32, day: u8) -> Option<Tagged> {
    Some(Tagged { price, day })
}

// The prices 1 to 30, of which the highest stands on the first day.
const THIRTY: [Option<i32>; 30] = [
    Some(30),
    Some(29),
    Some(28),
    Some(27),
    Some(26),
    Some(25),
    Some(24),
    Some(23),
    Some(22),
    Some(21),
    Some(20),
    Some(19),
    Some(18),
    Some(17),
    Some(16),
    Some(15),
    Some(14),
    Some(13),
    Some(12),
    Some(11),
    Some(10),
    Some(9),
    Some(8),
    Some(7),
    Some(6),
    Some(5),
    Some(4),
    Some(3),
    Some(2),
    Some(1),
];

// 30 elements: 85 percent is 25.5, so 26 do not come after the answer.
#[test]
fn eighty_fifth_of_thirty(rt: HostRuntime) {
    assert_eq!(rt; percentile(&THIRTY, 85), Ok(26));
}

// 30 elements: 1 percent is 0.3, so 1; 50 percent is 15; 100 percent is 30.
#[test]
fn ends_and_middle_of_thirty(rt: HostRuntime) {
    assert_eq!(rt; percentile(&THIRTY, 1), Ok(1));
    assert_eq!(rt; percentile(&THIRTY, 50), Ok(15));
    assert_eq!(rt; percentile(&THIRTY, 100), Ok(30));
}

// 5 elements: 50 percent is 2.5, so 3. Prices in order are -4, 7, 7, 7, 9: the third is 7, which days
// 1, 2 and 4 have, and day 1 comes first.
#[test]
fn earliest_of_equals(rt: HostRuntime) {
    let days = [of(9, 0), of(7, 1), of(7, 2), of(-4, 3), of(7, 4)];
    assert_eq!(rt; day_of(percentile(&days, 50)), Ok(1));
    // 40 percent is 2 and 80 percent is 4: the second and the fourth are 7 as well.
    assert_eq!(rt; day_of(percentile(&days, 40)), Ok(1));
    assert_eq!(rt; day_of(percentile(&days, 80)), Ok(1));
    // 81 percent is 4.05, so 5; 20 percent is 1.
    assert_eq!(rt; day_of(percentile(&days, 81)), Ok(0));
    assert_eq!(rt; day_of(percentile(&days, 20)), Ok(3));
}

// 3 elements on 6 days: 50 percent is 1.5, so 2. Prices in order are 1, 5, 8.
#[test]
fn absent_days_are_skipped(rt: HostRuntime) {
    let days = [None, of(8, 1), None, of(1, 3), of(5, 4), None];
    assert_eq!(rt; day_of(percentile(&days, 50)), Ok(4));
    // 33 percent is 0.99, so 1; 34 percent is 1.02, so 2; 67 percent is 2.01, so 3.
    assert_eq!(rt; day_of(percentile(&days, 33)), Ok(3));
    assert_eq!(rt; day_of(percentile(&days, 34)), Ok(4));
    assert_eq!(rt; day_of(percentile(&days, 67)), Ok(1));
}

#[test]
fn no_days(rt: HostRuntime) {
    let absent: [Option<Tagged>; 2] = [None, None];
    assert_eq!(rt; day_of(percentile(&absent, 50)), Err(NoDays));
    assert_eq!(rt; day_of(percentile(&absent[..0], 50)), Err(NoDays));
    assert_eq!(rt; NoDays.number(), 15);
}

#[test]
fn percents_outside_one_to_hundred(rt: HostRuntime) {
    let days = [of(8, 0), of(3, 1)];
    assert_eq!(rt; day_of(percentile(&days, 0)), Err(NoDays));
    assert_eq!(rt; day_of(percentile(&days, 101)), Err(NoDays));
    // 2 elements: 1 percent is 0.02, so 1; 50 percent is 1; 51 percent is 1.02, so 2.
    assert_eq!(rt; day_of(percentile(&days, 1)), Ok(1));
    assert_eq!(rt; day_of(percentile(&days, 50)), Ok(1));
    assert_eq!(rt; day_of(percentile(&days, 51)), Ok(0));
    assert_eq!(rt; day_of(percentile(&days, 100)), Ok(0));
}

#[test]
fn single_element_answers_always(rt: HostRuntime) {
    let days = [None, of(-6, 1)];
    assert_eq!(rt; day_of(percentile(&days, 1)), Ok(1));
    assert_eq!(rt; day_of(percentile(&days, 100)), Ok(1));
}

// The prices 0 to 9 in order, again and again.
fn repeat_prices(days: &mut [Option<Tagged>]) {
    for (slot, day) in days.iter_mut().zip(0..=u8::MAX) {
        *slot = of((day % 10) as i32, day);
    }
}

// 250 elements, 25 of each price. 45 percent is 112.5, so 113: 100 do not come after 3, and 125 do not
// come after 4, which stands on day 4 first.
#[test]
fn more_than_thirty_days(rt: HostRuntime) {
    let mut days = [None; 250];
    repeat_prices(&mut days);
    assert_eq!(rt; day_of(percentile(&days, 45)), Ok(4));
    // 40 percent is 100: price 3. 41 percent is 102.5, so 103: price 4.
    assert_eq!(rt; day_of(percentile(&days, 40)), Ok(3));
    assert_eq!(rt; day_of(percentile(&days, 41)), Ok(4));
}
