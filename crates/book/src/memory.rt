// Reserving memory: the one call of the book that allocates.
ghost use Rattle.std.specs.Prelude.{◌≡◌, MatchResult};
ghost use Rattle.book.specs.Shown.{Empty};

use crate::refusal::Refusal;
use crate::row::MOST_ROWS;
use crate::state::{MOST_RIGHTS, Room};
use std::alloc::Global;

impl Room {
    pub fn reserve(heap: Global) -> Result<Room, Refusal>
        ensures { MatchResult result (λ room. Empty room) (λ f. f ≡ Refusal.NoMemory) }
    {
        let rights = Vec::with_capacity(heap, MOST_RIGHTS)?;
        let rows = Vec::with_capacity(heap, MOST_ROWS)?;
        let before = Vec::with_capacity(heap, MOST_ROWS)?;
        Ok(Room {
            rights,
            rows,
            before,
        })
    }
}
