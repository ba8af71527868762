// The interface of price records.
ghost use Rattle.std.specs.Prelude.{◌≡◌, ℕ};
ghost use Rattle.prices.specs.Entries.{Entry, answer, Ranged};

use crate::fault::RecordFault;
use market::units::{Hour, Point, Price};

pub trait Record: Copy {
    // What the record holds at each point.
    ghost meaning: { Self → ℕ → Entry };

    // The proof that every value it holds is in range.
    ghost ranged: { (s : Self) (p : ℕ) → Ranged (meaning s p) };

    // The value at a point, an hour and a day, if any; or the fault for a point that is not known. The three stay
    // apart: a path asks at points of its own, and a calendar knows no point, so a type of all three would be
    // taken apart wherever it comes.
    fn ask(&self, point: Point, hour: Hour, day: u8) -> Result<Option<Price>, RecordFault>
        ensures { result ≡ answer (meaning self.now point) hour day };
}
