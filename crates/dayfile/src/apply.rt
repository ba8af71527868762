// A call of the file, made on the book.
ghost use Rattle.std.specs.Prelude.{◌≡◌, ◌<◌};
ghost use Rattle.book.specs.Shown.{view};
ghost use Rattle.dayformat.specs.Filed.{means};
ghost use Rattle.dayfile.specs.Lines.{letter};
ghost use Rattle.dayfile.specs.Numbers.{call_returned};
ghost use Rattle.dayfile.specs.Runs.{asked, told, left};

use crate::refusal::CallRefusal;
use book::state::Book;
use dayformat::call::Call;
use exposure::rule::Rule;
use market::step::Step;
use market::submission::Submission;

// A letter of the file. `Display` for one letter would be no plainer.
pub(crate) fn letter_of(call: &Call) -> u8
    ensures { result ≡ letter (means call.now) }
{
    match call {
        Call::Submit { .. } => b'S',
        Call::Withdraw(_) => b'W',
        Call::OpenBatch => b'O',
        Call::KeepBatch => b'K',
        Call::CancelBatch => b'C',
        Call::Limit(_) => b'L',
    }
}

// Makes a call.
pub(crate) fn apply<R: Rule>(book: &mut Book, rule: &mut R, call: Call) -> Result<(), CallRefusal>
    ensures number { call_returned result ≡ told (view book.old) (asked (R.worth rule.old) (means call.entry)) }
    ensures after { view book.new ≡ left (view book.old) (asked (R.worth rule.old) (means call.entry)) }
    ensures kept { R.worth rule.new ≡ R.worth rule.old }
{
    match call {
        Call::Submit { figures, steps } => {
            let submission = Submission::make(figures, &steps.read::<Step>())?;
            book.submit(rule, submission)?;
        }
        Call::Withdraw(number) => {
            book.withdraw(number)?;
        }
        Call::OpenBatch => book.open_batch()?,
        Call::KeepBatch => book.keep_batch()?,
        Call::CancelBatch => book.cancel_batch()?,
        Call::Limit(limit) => book.new_limit(limit)?,
    }
    Ok(())
}

// The number that a call returns.
pub(crate) fn returned(answer: Result<(), CallRefusal>) -> u8
    ensures value { result ≡ call_returned answer }
    ensures short { result < 100 }
{
    answer.map_or_else(CallRefusal::number, |()| 0)
}
