// The run of a whole file.
ghost use Rattle.std.specs.Prelude.{◌≤◌, length, IfOk};
ghost use Rattle.dayformat.specs.Headers.{lent_head};
ghost use Rattle.dayfile.specs.Lines.{closing};
ghost use Rattle.dayfile.specs.Puts.{FilledOr};
ghost use Rattle.dayfile.specs.Runs.{under, lines, Answered};

use crate::line::put_closing;
use crate::play::play;
use crate::refusal::Refusal;
use book::state::{Book, Room};
use dayformat::header::{LentHeader, LentValuation};
use dayformat::headers::lend_header;
use exposure::protocol::Protocol;
use exposure::rates::Rates;
use exposure::rule::Rule;
use formulas::factors::Factors;
use market::right::Right;
use prices::fault::Label;
use prices::page::Page;

// The lines of any file fit so many bytes.
pub const ANSWER_BYTES: usize = 49_152;

// Opens the book of a header, and makes the calls of its file under a rule; none where the book is refused. What is asked
// of file and calls is what `lend_header` promises of them, and it goes on to `play`; that and room, file and answer
// go on as they are: a type would be made in one step and opened in the next.
fn open_and_play<R: Rule>(
    room: Room,
    header: &LentHeader,
    rule: &mut R,
    file: &[u8],
    answer: &mut [u8; ANSWER_BYTES],
) -> Option<usize>
    requires short { length file.now ≤ 65536 }
    requires inside { length header.now.calls.now ≤ length file.now }
    ensures { FilledOr (closing 0) (under file.now (lent_head header.now) (R.worth rule.old)) answer.old result answer.new }
{
    let rights = header.rights.read::<Right>();
    let mut book = Book::open(room, header.limit, &rights).ok()?;
    Some(play(&mut book, rule, file.len(), header.calls, answer))
}

// Makes the calls of a file under the rule of its header; none where the header is unfit.
fn play_file(room: Room, file: &[u8], answer: &mut [u8; ANSWER_BYTES]) -> Option<usize>
    ensures { FilledOr (closing 0) (lines file.now) answer.old result answer.new }
{
    let header = lend_header(file)?;
    match header.valuation {
        LentValuation::Rates(prices) => {
            let mut rates = Rates::make(prices).ok()?;
            open_and_play(room, &header, &mut rates, file, answer)
        }
        LentValuation::Protocol {
            factors,
            day_ahead,
            real_time,
        } => {
            let [e1, e2, e3] = factors;
            let mut protocol = Protocol {
                day_ahead: Page::new(day_ahead, Label::DayAhead),
                real_time: Page::new(real_time, Label::RealTime),
                factors: Factors::make(e1, e2, e3).ok()?,
            };
            open_and_play(room, &header, &mut protocol, file, answer)
        }
    }
}

// Writes the lines of a file at the start of the answer, and returns how many bytes they have. What
// stands past them stays. An answer of under 49,152 bytes is refused and left as it was.
pub fn run(room: Room, file: &[u8], answer: &mut [u8]) -> Result<usize, Refusal>
    ensures answered { Answered (lines file.now) answer.old result answer.new }
    ensures fits { IfOk result (λ count. count ≤ 49152) }
{
    let lines = answer
        .first_chunk_mut::<ANSWER_BYTES>()
        .ok_or(Refusal::AnswerTooSmall)?;
    // `unwrap_or_else` was tried, and that proof didn't close: what its closure leaves of the bytes is out of reach.
    match play_file(room, file, lines) {
        Some(count) => Ok(count),
        None => Ok(put_closing(lines, 0, 0)),
    }
}
