// Examples of batches: what keeping and cancelling leave.
use crate::setting::{PATH, RIGHT, claiming, opened, rates, tried};
use book::answer::Accepted;
use book::refusal::Refusal;
use std::test::Fail;

// What an accepted bid without rights brings.
fn worth(exposure: i64) -> Result<Accepted, Refusal> {
    Ok(Accepted { exposure, cover: 0 })
}

#[test]
fn one_batch_at_a_time(rt: HostRuntime) -> Result<(), Fail> {
    let mut book = opened(rt.alloc(), 1000, &[])?;
    assert_eq!(rt; book.keep_batch(), Err(Refusal::NoBatch));
    assert_eq!(rt; book.cancel_batch(), Err(Refusal::NoBatch));
    assert_eq!(rt; book.open_batch(), Ok(()));
    assert_eq!(rt; book.open_batch(), Err(Refusal::BatchOpen));
    // The batch is seen before the range.
    assert_eq!(rt; book.new_limit(-1), Err(Refusal::BatchOpen));
    assert_eq!(rt; book.new_limit(500), Err(Refusal::BatchOpen));
    assert_eq!(rt; book.limit(), 1000);
    assert_eq!(rt; book.keep_batch(), Ok(()));
    assert_eq!(rt; book.keep_batch(), Err(Refusal::NoBatch));
    assert_eq!(rt; book.new_limit(-1), Err(Refusal::LimitUnfit));
    assert_eq!(rt; book.new_limit(500), Ok(()));
    Ok(())
}

#[test]
fn a_kept_batch_stays(rt: HostRuntime) -> Result<(), Fail> {
    let mut book = opened(rt.alloc(), 1000, &[])?;
    assert_eq!(rt; book.open_batch(), Ok(()));
    assert_eq!(rt; tried(&mut book, 1, 600)?, worth(600));
    assert_eq!(rt; book.keep_batch(), Ok(()));
    assert_eq!(rt; book.exposure(), 600);
    assert_eq!(rt; book.cancel_batch(), Err(Refusal::NoBatch));
    assert_eq!(rt; book.exposure(), 600);
    assert_eq!(rt; book.rows().len(), 1);
    Ok(())
}

#[test]
fn a_cancelled_batch_gives_back_rows_total_and_free_tenths(rt: HostRuntime) -> Result<(), Fail> {
    let mut book = opened(rt.alloc(), 100_000_000, &[RIGHT])?;
    let mut rates = rates()?;
    assert_eq!(rt;
        book.submit(&mut rates, claiming(1, 1, 200, 50)?),
        Ok(Accepted {
            exposure: 0,
            cover: 200,
        })
    );
    assert_eq!(rt; book.free(PATH), 100);
    assert_eq!(rt; book.open_batch(), Ok(()));
    assert_eq!(rt; book.withdraw(1), Ok(0));
    assert_eq!(rt; book.free(PATH), 300);
    assert_eq!(rt;
        book.submit(&mut rates, claiming(2, 1, 300, 50)?),
        Ok(Accepted {
            exposure: 0,
            cover: 300,
        })
    );
    // 100 · 200 · (100 − 0)
    assert_eq!(rt;
        book.submit(&mut rates, claiming(3, 1, 100, 50)?),
        worth(2_000_000)
    );
    assert_eq!(rt; book.free(PATH), 0);
    assert_eq!(rt; book.exposure(), 2_000_000);
    assert_eq!(rt; book.cancel_batch(), Ok(()));
    assert_eq!(rt; book.exposure(), 0);
    assert_eq!(rt; book.free(PATH), 100);
    assert_eq!(rt; book.rows().len(), 1);
    assert_eq!(rt; book.withdraw(3), Err(Refusal::NotStanding));
    assert_eq!(rt; book.withdraw(2), Err(Refusal::NotStanding));
    assert_eq!(rt; book.withdraw(1), Ok(0));
    Ok(())
}

#[test]
fn a_batch_saves_what_stands_when_it_opens(rt: HostRuntime) -> Result<(), Fail> {
    let mut book = opened(rt.alloc(), 1000, &[])?;
    assert_eq!(rt; book.open_batch(), Ok(()));
    assert_eq!(rt; tried(&mut book, 1, 10)?, worth(10));
    assert_eq!(rt; book.cancel_batch(), Ok(()));
    assert_eq!(rt; book.exposure(), 0);
    assert_eq!(rt; tried(&mut book, 2, 20)?, worth(20));
    assert_eq!(rt; book.open_batch(), Ok(()));
    assert_eq!(rt; tried(&mut book, 3, 30)?, worth(30));
    assert_eq!(rt; book.exposure(), 50);
    assert_eq!(rt; book.cancel_batch(), Ok(()));
    assert_eq!(rt; book.exposure(), 20);
    assert_eq!(rt; tried(&mut book, 3, 980)?, worth(980));
    Ok(())
}

// An offer that lowers the total, a cut of the limit, and a batch between them.
#[test]
fn lowered_cut_and_cancelled(rt: HostRuntime) -> Result<(), Fail> {
    let mut book = opened(rt.alloc(), 1000, &[])?;
    assert_eq!(rt; tried(&mut book, 1, 900)?, worth(900));
    assert_eq!(rt; tried(&mut book, 2, -400)?, worth(-400));
    assert_eq!(rt; book.new_limit(600), Ok(()));
    assert_eq!(rt; book.open_batch(), Ok(()));
    assert_eq!(rt;
        book.withdraw(2),
        Err(Refusal::WithdrawOver {
            exposure: -400,
            room: 100,
        })
    );
    assert_eq!(rt; tried(&mut book, 3, 100)?, worth(100));
    assert_eq!(rt; book.exposure(), 600);
    assert_eq!(rt; book.cancel_batch(), Ok(()));
    assert_eq!(rt; book.exposure(), 500);
    assert_eq!(rt; book.new_limit(400), Ok(()));
    assert_eq!(rt;
        book.withdraw(2),
        Err(Refusal::WithdrawOver {
            exposure: -400,
            room: -100,
        })
    );
    assert_eq!(rt; book.withdraw(1), Ok(900));
    assert_eq!(rt; book.exposure(), -400);
    Ok(())
}
