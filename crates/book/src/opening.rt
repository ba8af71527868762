// Opening a book in memory that was reserved.
ghost use Rattle.std.specs.Prelude.{◌≡◌, IfOk};
ghost use Rattle.history.specs.Answers.{fit_limit};
ghost use Rattle.book.specs.Opening.{opening, Opened, Begins};

use crate::batch::Batch;
use crate::ledger::Ledger;
use crate::refusal::Refusal;
use crate::state::{Book, MOST_LIMIT, Room};
use market::right::Right;
use rights::held::rights_fit;

// A refused opening hands its memory back.
#[derive(Drop)]
pub struct Unopened {
    pub refusal: Refusal,
    pub room: Room,
}

pub(crate) fn limit_fits(limit: i64) -> bool
    ensures { result ≡ fit_limit limit }
{
    (0..=MOST_LIMIT).contains(&limit)
}

impl Book {
    fn begin(room: Room, limit: i64, rights: &[Right]) -> Result<Book, Unopened>
        ensures { Opened room (opening limit rights.now) result }
    {
        if !limit_fits(limit) {
            return Err(Unopened {
                refusal: Refusal::LimitUnfit,
                room,
            });
        }
        if !rights_fit(rights) {
            return Err(Unopened {
                refusal: Refusal::RightsUnfit,
                room,
            });
        }
        let Room {
            rights: mut held,
            mut rows,
            mut before,
        } = room;
        held.clear();
        let _ = held.extend_from_slice(rights);
        rows.clear();
        before.clear();
        Ok(Book {
            limit,
            rights: held,
            standing: Ledger { rows, total: 0 },
            before: Ledger {
                rows: before,
                total: 0,
            },
            batch: Batch::Plain,
        })
    }

    pub fn open(room: Room, limit: i64, rights: &[Right]) -> Result<Book, Unopened>
        ensures answer { Opened room (opening limit rights.now) result }
        ensures law { IfOk result (λ b. Begins (opening limit rights.now) b) }
    {
        Book::begin(room, limit, rights)
    }
}
