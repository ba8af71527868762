// The book, and the memory that one needs.
ghost use Rattle.std.specs.Prelude.{◌≤◌, pos, ◌≤ℤ◌, vec_capacity};

use crate::batch::Batch;
use crate::ledger::Ledger;
use crate::row::Row;
pub use market::right::MOST_RIGHTS;
use market::right::Right;

// In grains: 10^16.
pub const MOST_LIMIT: i64 = 10_000_000_000_000_000;

// `before` is what a cancel restores while a batch is open. It stands beside the batch's state and not inside of it, since
// its memory is taken once and no call after that allocates.
#[derive(Drop)]
pub struct Book {
    pub(crate) limit: i64,
    pub(crate) rights: Vec<Right>,
    pub(crate) standing: Ledger,
    pub(crate) before: Ledger,
    pub(crate) batch: Batch,
    ghost low: { pos 0 ≤ℤ limit },
    ghost high: { limit ≤ℤ pos 10000000000000000 },
}

// All the memory that a book can need, taken before it opens.
#[derive(Drop)]
pub struct Room {
    pub(crate) rights: Vec<Right>,
    pub(crate) rows: Vec<Row>,
    pub(crate) before: Vec<Row>,
    ghost wide: { 200 ≤ vec_capacity rights },
    ghost deep: { 500 ≤ vec_capacity rows },
    ghost back: { 500 ≤ vec_capacity before },
}
