// Submitting under a rule.
ghost use Rattle.std.specs.Prelude.{◌≡◌, ◌<◌, true, IfOk, vec_len};
ghost use Rattle.rights.specs.Covers.{cover_of};
ghost use Rattle.history.specs.Answers.{submit_answer};
ghost use Rattle.history.specs.Events.{submitted, after};
ghost use Rattle.history.specs.Sums.{grains};
ghost use Rattle.book.specs.Laws.{Law};
ghost use Rattle.book.specs.Shown.{view};

use crate::admits::{out_of_range, passes};
use crate::answer::Accepted;
use crate::refusal::Refusal;
use crate::row::{MOST_ROWS, Row};
use crate::state::Book;
use exposure::rule::Rule;
use market::submission::Submission;
use market::units::Tenths;
use rights::cover::covered_tenths;

impl Book {
    // The cover of a submission by what stands.
    fn cover(&self, submission: &Submission) -> Tenths
        ensures { result ≡ cover_of (view self.now).rights (view self.now).rows submission.now }
    {
        covered_tenths(&self.rights, &self.standing.rows, submission)
    }

    // The answer to a submission: nothing is changed yet.
    fn weigh<R: Rule>(&self, rule: &mut R, submission: &Submission) -> Result<Accepted, Refusal>
        ensures answer { result ≡ submit_answer (view self.now) submission.now (R.worth rule.old) }
        ensures fits { IfOk result (λ a. (vec_len self.now.standing.rows < 500) × (grains a.exposure ≡ true)) }
        ensures kept { R.worth rule.new ≡ R.worth rule.old }
    {
        if self.standing.place(submission.number()).is_some() {
            return Err(Refusal::NumberStands);
        }
        if self.standing.rows.len() >= MOST_ROWS {
            return Err(Refusal::RowsFull);
        }
        let cover = self.cover(submission);
        let exposure = rule.value(submission, cover)?;
        let total = self.standing.total;
        if out_of_range(total + exposure) {
            return Err(Refusal::TotalOutOfRange);
        }
        if passes(self.limit, total, exposure) {
            return Err(Refusal::SubmitOver {
                exposure,
                room: self.limit - total,
            });
        }
        Ok(Accepted { exposure, cover })
    }

    fn enter<R: Rule>(&mut self, rule: &mut R, submission: Submission) -> Result<Accepted, Refusal>
        ensures answer { result ≡ submit_answer (view self.old) submission (R.worth rule.old) }
        ensures after { view self.new ≡ after (view self.old) (submitted submission (R.worth rule.old) result) }
        ensures kept { R.worth rule.new ≡ R.worth rule.old }
    {
        let accepted = self.weigh(rule, &submission)?;
        self.standing.add(Row {
            submission,
            exposure: accepted.exposure,
            cover: accepted.cover,
        });
        Ok(accepted)
    }

    // Accepts a submission that no test refuses; the answer brings its exposure and cover.
    pub fn submit<R: Rule>(
        &mut self,
        rule: &mut R,
        submission: Submission,
    ) -> Result<Accepted, Refusal>
        ensures answer { result ≡ submit_answer (view self.old) submission (R.worth rule.old) }
        ensures after { view self.new ≡ after (view self.old) (submitted submission (R.worth rule.old) result) }
        ensures kept { R.worth rule.new ≡ R.worth rule.old }
        ensures law { Law self.old (submitted submission (R.worth rule.old) result) self.new }
    {
        self.enter(rule, submission)
    }
}
