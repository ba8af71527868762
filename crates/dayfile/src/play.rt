// The calls of a file, one after another.
ghost use Rattle.std.specs.Prelude.{◌≤◌, length};
ghost use Rattle.book.specs.Shown.{view};
ghost use Rattle.dayformat.specs.Scripts.{script};
ghost use Rattle.dayfile.specs.Puts.{Filled};
ghost use Rattle.dayfile.specs.Runs.{text};

use crate::apply::{apply, letter_of, returned};
use crate::line::{put_closing, put_line};
use crate::run::ANSWER_BYTES;
use book::state::Book;
use dayformat::calls::next_call;
use exposure::rule::Rule;

// At most so many calls of a file are made.
const MOST_CALLS: usize = 2000;

// Makes the calls, writes a line for each, and returns how many bytes the lines have.
pub(crate) fn play<R: Rule>(
    book: &mut Book,
    rule: &mut R,
    size: usize,
    calls: &[u8],
    answer: &mut [u8; ANSWER_BYTES],
) -> usize
    requires short { size ≤ 65536 }
    requires inside { length calls.now ≤ size }
    ensures { Filled (text (R.worth rule.old) (view book.old) (script 2000 size calls.now)) answer.old result answer.new }
{
    let mut rest = calls;
    let mut at = 0;
    for _ in 0..MOST_CALLS {
        // The loop ends here and not the function, as it would by `?`: the closing line is still to be written.
        let Some((call, after)) = next_call(rest) else {
            break;
        };
        let letter = letter_of(&call);
        let number = returned(apply(book, rule, call));
        at = put_line(answer, at, letter, number, book.exposure());
        rest = after;
    }
    if rest.is_empty() {
        return at;
    }
    put_closing(answer, at, size - rest.len())
}
