// Questions: they change nothing. Each answers what the book shows, and so what every history that leads here says.
ghost use Rattle.std.specs.Prelude.{◌≡◌, ◌≤◌};
ghost use Rattle.std.specs.Int.Signed.{mag};
ghost use Rattle.rights.specs.Covers.{free_of};
ghost use Rattle.history.specs.Histories.{exposure_by, free_by, limit_by, standing};
ghost use Rattle.history.specs.Protocols.{ByFormulas};
ghost use Rattle.history.specs.Runs.{ByEveryHistory};
ghost use Rattle.history.specs.Sums.{sum};
ghost use Rattle.book.specs.Shown.{view, stated};

use crate::row::Row;
use crate::state::Book;
use market::right::PathHour;
use market::units::Tenths;
use rights::cover::free_tenths;

impl Book {
    // The sum of what stands: at most 500 rows of at most 10^14 grains each. Under the protocol rule, over any two
    // records, it is the sum of the rule's formulas.
    pub fn exposure(&self) -> i64
        ensures stated { result ≡ stated self.now }
        ensures sums { result ≡ sum (view self.now).rows }
        ensures history { ByEveryHistory (view self.now) (λ o es. result ≡ exposure_by o es) }
        ensures protocol { ByEveryHistory (view self.now) (λ o es. ByFormulas o es result) }
        ensures bounded { mag result ≤ 50000000000000000 }
    {
        self.standing.total
    }

    // The tenths of a path and hour that nothing that stands draws on.
    pub fn free(&self, path: PathHour) -> Tenths
        ensures stated { result ≡ free_of (view self.now).rights (view self.now).rows path }
        ensures history { ByEveryHistory (view self.now) (λ o es. result ≡ free_by o es path) }
    {
        free_tenths(&self.rights, &self.standing.rows, path)
    }

    pub fn limit(&self) -> i64
        ensures stated { result ≡ (view self.now).limit }
        ensures history { ByEveryHistory (view self.now) (λ o es. result ≡ limit_by o es) }
    {
        self.limit
    }

    // What stands, in order of acceptance.
    pub fn rows(&self) -> &[Row]
        ensures stated { result.now ≡ (view self.now).rows }
        ensures history { ByEveryHistory (view self.now) (λ o es. result.now ≡ standing o es) }
    {
        self.standing.rows.as_slice()
    }
}
