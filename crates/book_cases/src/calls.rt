// Examples of the book: the limit, the rows, the covers.
use crate::setting::{PATH, RIGHT, claiming, opened, opening, rates, tried};
use book::answer::Accepted;
use book::refusal::Refusal;
use book::state::Book;
use market::right::{PathHour, Right};
use std::test::Fail;

#[test]
fn the_limit_is_met_and_not_passed(rt: HostRuntime) -> Result<(), Fail> {
    let mut book = opened(rt.alloc(), 1000, &[])?;
    assert_eq!(rt;
        tried(&mut book, 1, 600)?,
        Ok(Accepted {
            exposure: 600,
            cover: 0,
        })
    );
    assert_eq!(rt;
        tried(&mut book, 2, 401)?,
        Err(Refusal::SubmitOver {
            exposure: 401,
            room: 400,
        })
    );
    assert_eq!(rt; book.exposure(), 600);
    assert_eq!(rt;
        tried(&mut book, 2, 400)?,
        Ok(Accepted {
            exposure: 400,
            cover: 0,
        })
    );
    assert_eq!(rt; book.exposure(), 1000);
    Ok(())
}

#[test]
fn after_a_cut_the_total_only_falls(rt: HostRuntime) -> Result<(), Fail> {
    let mut book = opened(rt.alloc(), 1000, &[])?;
    assert_eq!(rt;
        tried(&mut book, 1, 596)?,
        Ok(Accepted {
            exposure: 596,
            cover: 0,
        })
    );
    assert_eq!(rt;
        tried(&mut book, 2, 5)?,
        Ok(Accepted {
            exposure: 5,
            cover: 0,
        })
    );
    assert_eq!(rt; book.new_limit(500), Ok(()));
    assert_eq!(rt;
        tried(&mut book, 3, -1)?,
        Ok(Accepted {
            exposure: -1,
            cover: 0,
        })
    );
    assert_eq!(rt; book.exposure(), 600);
    assert_eq!(rt;
        tried(&mut book, 4, 1)?,
        Err(Refusal::SubmitOver {
            exposure: 1,
            room: -100,
        })
    );
    assert_eq!(rt;
        book.withdraw(3),
        Err(Refusal::WithdrawOver {
            exposure: -1,
            room: -100,
        })
    );
    assert_eq!(rt; book.withdraw(2), Ok(5));
    assert_eq!(rt; book.exposure(), 595);
    Ok(())
}

#[test]
fn limits_in_range(rt: HostRuntime) -> Result<(), Fail> {
    let mut book = opened(rt.alloc(), 10_000_000_000_000_000, &[])?;
    assert_eq!(rt; book.new_limit(-1), Err(Refusal::LimitUnfit));
    assert_eq!(rt;
        book.new_limit(10_000_000_000_000_001),
        Err(Refusal::LimitUnfit)
    );
    assert_eq!(rt; book.limit(), 10_000_000_000_000_000);
    assert_eq!(rt; book.new_limit(0), Ok(()));
    assert_eq!(rt; book.limit(), 0);
    Ok(())
}

#[test]
fn five_hundred_rows_stand(rt: HostRuntime) -> Result<(), Fail> {
    let mut book = opened(rt.alloc(), 1000, &[])?;
    for number in 1..501 {
        assert_eq!(rt;
            tried(&mut book, number, 0)?,
            Ok(Accepted {
                exposure: 0,
                cover: 0,
            })
        );
    }
    assert_eq!(rt; tried(&mut book, 501, 0)?, Err(Refusal::RowsFull));
    assert_eq!(rt; tried(&mut book, 500, 0)?, Err(Refusal::NumberStands));
    assert_eq!(rt; book.withdraw(250), Ok(0));
    assert_eq!(rt;
        tried(&mut book, 501, 0)?,
        Ok(Accepted {
            exposure: 0,
            cover: 0,
        })
    );
    assert_eq!(rt; book.rows().len(), 500);
    Ok(())
}

#[test]
fn numbers_stand_once(rt: HostRuntime) -> Result<(), Fail> {
    let mut book = opened(rt.alloc(), 1000, &[])?;
    assert_eq!(rt; book.withdraw(7), Err(Refusal::NotStanding));
    assert_eq!(rt;
        tried(&mut book, 7, 10)?,
        Ok(Accepted {
            exposure: 10,
            cover: 0,
        })
    );
    assert_eq!(rt; tried(&mut book, 7, 10)?, Err(Refusal::NumberStands));
    assert_eq!(rt; book.withdraw(7), Ok(10));
    assert_eq!(rt; book.withdraw(7), Err(Refusal::NotStanding));
    Ok(())
}

#[test]
fn rights_cover_what_is_free_of_them(rt: HostRuntime) -> Result<(), Fail> {
    let mut book = opened(rt.alloc(), 100_000_000, &[RIGHT])?;
    let mut rates = rates()?;
    assert_eq!(rt; book.free(PATH), 300);
    // 100 · 200 · (200 − 200)
    assert_eq!(rt;
        book.submit(&mut rates, claiming(1, 1, 200, 50)?),
        Ok(Accepted {
            exposure: 0,
            cover: 200,
        })
    );
    // 100 · 200 · (200 − 100)
    assert_eq!(rt;
        book.submit(&mut rates, claiming(2, 1, 200, 50)?),
        Ok(Accepted {
            exposure: 2_000_000,
            cover: 100,
        })
    );
    assert_eq!(rt; book.free(PATH), 0);
    assert_eq!(rt; book.withdraw(1), Ok(0));
    assert_eq!(rt; book.free(PATH), 200);
    assert_eq!(rt; book.free(PathHour { hour: 6, ..PATH }), 0);
    Ok(())
}

#[test]
fn only_claims_above_zero_are_covered(rt: HostRuntime) -> Result<(), Fail> {
    let mut book = opened(rt.alloc(), 100_000_000, &[RIGHT])?;
    let mut rates = rates()?;
    assert_eq!(rt;
        book.submit(&mut rates, claiming(1, 0, 10, 50)?),
        Ok(Accepted {
            exposure: 200_000,
            cover: 0,
        })
    );
    assert_eq!(rt;
        book.submit(&mut rates, claiming(2, 1, 10, 0)?),
        Ok(Accepted {
            exposure: 200_000,
            cover: 0,
        })
    );
    assert_eq!(rt; book.free(PATH), 300);
    Ok(())
}

#[test]
fn a_refused_claim_keeps_no_cover(rt: HostRuntime) -> Result<(), Fail> {
    let mut book = opened(rt.alloc(), 0, &[RIGHT])?;
    let mut rates = rates()?;
    let answer = book.submit(&mut rates, claiming(1, 1, 400, 50)?);
    assert_eq!(rt;
        answer,
        Err(Refusal::SubmitOver {
            exposure: 2_000_000,
            room: 0,
        })
    );
    assert_eq!(rt; book.free(PATH), 300);
    Ok(())
}

// The number that an opening returns: 0 where a book opens. The number of making a submission is another type's, and
// a trait for the two would be longer than both.
fn number(opening: Result<Book, Refusal>) -> u8 {
    opening.map_or_else(|refusal| refusal.number(), |_| 0)
}

#[test]
fn openings_in_order_of_tests(rt: HostRuntime) -> Result<(), Fail> {
    let heap = rt.alloc();
    let right = Right {
        path: PATH,
        tenths: 1_000_000,
    };
    let loop_path = Right {
        path: PathHour { sink: 1, ..PATH },
        tenths: 1,
    };
    assert_eq!(rt; number(opening(heap, 0, &[right])), 0);
    assert_eq!(rt; number(opening(heap, 0, &[right, right])), 41);
    assert_eq!(rt; number(opening(heap, -1, &[right, right])), 33);
    assert_eq!(rt; number(opening(heap, 0, &[loop_path])), 41);
    let too_much = Right {
        tenths: 1_000_001,
        ..right
    };
    assert_eq!(rt; number(opening(heap, 0, &[too_much])), 41);
    let too_late = Right {
        path: PathHour { hour: 25, ..PATH },
        tenths: 1,
    };
    assert_eq!(rt; number(opening(heap, 0, &[too_late])), 41);
    Ok(())
}
