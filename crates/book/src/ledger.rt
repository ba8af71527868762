// The ledger: rows in order of acceptance, and their total.
ghost use Rattle.std.specs.Prelude.{◌≡◌, ◌≤◌, true, vec_len, vec_capacity};
ghost use Rattle.history.specs.Sums.{sum, small};

use crate::row::Row;

// Rows are the one record; the total is tied to them here.
#[derive(Drop)]
pub struct Ledger {
    pub(crate) rows: Vec<Row>,
    pub(crate) total: i64,
    ghost few: { vec_len rows ≤ 500 },
    ghost room: { 500 ≤ vec_capacity rows },
    ghost adds: { total ≡ sum rows.items },
    ghost within: { small rows.items ≡ true },
}
