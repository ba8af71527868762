// Opening a batch, and keeping or cancelling it.
ghost use Rattle.std.specs.Prelude.{◌≡◌};
ghost use Rattle.history.specs.declared.batch.BatchCall.TheVariants as batch_call;
ghost use Rattle.history.specs.Answers.{batch_answer};
ghost use Rattle.history.specs.Events.{batched, after};
ghost use Rattle.book.specs.Laws.{Law};
ghost use Rattle.book.specs.Shown.{view};

use crate::batch::Batch;
use crate::refusal::Refusal;
use crate::state::Book;
use history::batch::BatchCall;

impl Book {
    fn on_batch(&mut self, call: BatchCall) -> Result<(), Refusal>
        ensures answer { result ≡ batch_answer (view self.old) call }
        ensures after { view self.new ≡ after (view self.old) (batched call result) }
    {
        match (self.batch, call) {
            (Batch::Open, BatchCall::Open) => Err(Refusal::BatchOpen),
            (Batch::Plain, BatchCall::Keep) => Err(Refusal::NoBatch),
            (Batch::Plain, BatchCall::Cancel) => Err(Refusal::NoBatch),
            (Batch::Plain, BatchCall::Open) => {
                self.before.become_copy(&self.standing);
                self.batch = Batch::Open;
                Ok(())
            }
            (Batch::Open, BatchCall::Keep) => {
                self.batch = Batch::Plain;
                Ok(())
            }
            (Batch::Open, BatchCall::Cancel) => {
                std::mem::swap(&mut self.standing, &mut self.before);
                self.batch = Batch::Plain;
                Ok(())
            }
        }
    }

    // Saves what stands, for a cancel to restore.
    pub fn open_batch(&mut self) -> Result<(), Refusal>
        ensures answer { result ≡ batch_answer (view self.old) batch_call.Open }
        ensures after { view self.new ≡ after (view self.old) (batched batch_call.Open result) }
        ensures law { Law self.old (batched batch_call.Open result) self.new }
    {
        self.on_batch(BatchCall::Open)
    }

    // Makes the book plain, and alters nothing else.
    pub fn keep_batch(&mut self) -> Result<(), Refusal>
        ensures answer { result ≡ batch_answer (view self.old) batch_call.Keep }
        ensures after { view self.new ≡ after (view self.old) (batched batch_call.Keep result) }
        ensures law { Law self.old (batched batch_call.Keep result) self.new }
    {
        self.on_batch(BatchCall::Keep)
    }

    // Restores the book as it was before its batch was opened.
    pub fn cancel_batch(&mut self) -> Result<(), Refusal>
        ensures answer { result ≡ batch_answer (view self.old) batch_call.Cancel }
        ensures after { view self.new ≡ after (view self.old) (batched batch_call.Cancel result) }
        ensures law { Law self.old (batched batch_call.Cancel result) self.new }
    {
        self.on_batch(BatchCall::Cancel)
    }
}
