// Withdrawing a submission that stands.
ghost use Rattle.std.specs.Prelude.{◌≡◌};
ghost use Rattle.history.specs.Answers.{withdraw_answer};
ghost use Rattle.history.specs.Events.{withdrew, after};
ghost use Rattle.book.specs.Laws.{Law};
ghost use Rattle.book.specs.Shown.{view};

use crate::admits::passes;
use crate::refusal::Refusal;
use crate::state::Book;

impl Book {
    fn release(&mut self, number: u32) -> Result<i64, Refusal>
        ensures answer { result ≡ withdraw_answer (view self.old) number }
        ensures after { view self.new ≡ after (view self.old) (withdrew number result) }
    {
        let i = self.standing.place(number).ok_or(Refusal::NotStanding)?;
        let row = self.standing.rows[i];
        let exposure = row.exposure;
        let total = self.standing.total;
        if passes(self.limit, total, -exposure) {
            return Err(Refusal::WithdrawOver {
                exposure,
                room: self.limit - total,
            });
        }
        self.standing.take_out(i);
        Ok(exposure)
    }

    // Takes out the row of a number; the answer brings its exposure.
    pub fn withdraw(&mut self, number: u32) -> Result<i64, Refusal>
        ensures answer { result ≡ withdraw_answer (view self.old) number }
        ensures after { view self.new ≡ after (view self.old) (withdrew number result) }
        ensures law { Law self.old (withdrew number result) self.new }
    {
        self.release(number)
    }
}
