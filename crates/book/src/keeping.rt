// The ledger's own steps: finding, adding and taking out a row.
ghost use Rattle.std.specs.Prelude.{◌≡◌, ◌<◌, true, [], ◌∷◌, ◌++◌, vec_len};
ghost use Rattle.std.specs.List.{remove};
ghost use Rattle.history.specs.Rows.{Placed};
ghost use Rattle.history.specs.Sums.{grains};

use crate::ledger::Ledger;
use crate::row::Row;

impl Ledger {
    // Where a number stands, if it does.
    pub(crate) fn place(&self, number: u32) -> Option<usize>
        ensures { Placed number self.now.rows.items result }
    {
        self.rows
            .iter()
            .position(|row| row.submission.number() == number)
    }

    pub(crate) fn add(&mut self, row: Row)
        requires few { vec_len self.old.rows < 500 }
        requires within { grains row.exposure ≡ true }
        ensures { self.new.rows.items ≡ self.old.rows.items ++ (row ∷ []) }
    {
        self.total += row.exposure;
        self.rows.push_reserved(row);
    }

    pub(crate) fn take_out(&mut self, i: usize)
        requires { i < vec_len self.old.rows }
        ensures { self.new.rows.items ≡ remove self.old.rows.items i }
    {
        let row = self.rows.remove(i);
        self.total -= row.exposure;
    }

    // Holds the rows of another ledger from now on, in memory that it has already.
    pub(crate) fn become_copy(&mut self, other: &Ledger)
        ensures { self.new.rows.items ≡ other.now.rows.items }
    {
        self.rows.clear();
        let _ = self.rows.extend_from_slice(&other.rows);
        self.total = other.total;
    }
}
