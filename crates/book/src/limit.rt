// Setting a new limit.
ghost use Rattle.std.specs.Prelude.{◌≡◌};
ghost use Rattle.history.specs.Answers.{limit_answer};
ghost use Rattle.history.specs.Events.{limited, after};
ghost use Rattle.book.specs.Laws.{Law};
ghost use Rattle.book.specs.Shown.{view};

use crate::batch::Batch;
use crate::opening::limit_fits;
use crate::refusal::Refusal;
use crate::state::Book;

impl Book {
    // An open batch is seen before the range.
    fn set_limit(&mut self, limit: i64) -> Result<(), Refusal>
        ensures answer { result ≡ limit_answer (view self.old) limit }
        ensures after { view self.new ≡ after (view self.old) (limited limit result) }
    {
        match self.batch {
            Batch::Open => Err(Refusal::BatchOpen),
            Batch::Plain => {
                if !limit_fits(limit) {
                    return Err(Refusal::LimitUnfit);
                }
                self.limit = limit;
                Ok(())
            }
        }
    }

    // Alters the limit of a plain book, and nothing else.
    pub fn new_limit(&mut self, limit: i64) -> Result<(), Refusal>
        ensures answer { result ≡ limit_answer (view self.old) limit }
        ensures after { view self.new ≡ after (view self.old) (limited limit result) }
        ensures law { Law self.old (limited limit result) self.new }
    {
        self.set_limit(limit)
    }
}
