// The lines, written into the answer bytes. Their digits are written where they stand: built as a text of a fixed
// capacity and then copied, a short line took more than twice the time.
ghost use Rattle.std.specs.Prelude.{◌≡◌, ◌+◌, ◌≤◌, length, decimal};
ghost use Rattle.std.specs.Fmt.{signed_decimal};
ghost use Rattle.dayfile.specs.Lines.{line, closing};
ghost use Rattle.dayfile.specs.Puts.{Wrote};

use itoa::write_digits;

// Writes bytes from a place on, and returns the place after them. The place is handed on as a number: a type of the
// answer and its place would hold a `&mut` between the calls that are made, and be no plainer.
#[inline(always)]
fn put(answer: &mut [u8], at: usize, bytes: &[u8]) -> usize
    requires { at + length bytes.now ≤ length answer.old }
    ensures { Wrote answer.old at bytes.now result answer.new }
{
    let end = at + bytes.len();
    answer[at..end].copy_from_slice(bytes);
    end
}

#[tactic(auto, using(crate::proofs::Digits::one_digit, crate::proofs::Digits::one_digit_more))]
fn digit_count(n: u64) -> usize
    ensures { result ≡ length (decimal n) }
{
    if n < 10 { 1 } else { digit_count(n / 10) + 1 }
}

// Writes the digits of n from a place on, and returns the place after them.
#[inline(always)]
fn put_digits(answer: &mut [u8], at: usize, n: u64) -> usize
    requires { at + length (decimal n) ≤ length answer.old }
    ensures { Wrote answer.old at (decimal n) result answer.new }
{
    let end = at + digit_count(n);
    write_digits(n, answer, end);
    end
}

// Writes a number with its sign from a place on, and returns the place after it.
#[inline(always)]
fn put_signed(answer: &mut [u8], at: usize, n: i64) -> usize
    requires { at + length (signed_decimal n) ≤ length answer.old }
    ensures { Wrote answer.old at (signed_decimal n) result answer.new }
{
    if n < 0 {
        let after = put(answer, at, b"-");
        put_digits(answer, after, n.unsigned_abs())
    } else {
        put_digits(answer, at, n.unsigned_abs())
    }
}

// Writes the line of a call from a place on, and returns the place after it.
#[inline(always)]
pub(crate) fn put_line(answer: &mut [u8], at: usize, letter: u8, number: u8, exposure: i64) -> usize
    requires { at + length (line letter number exposure) ≤ length answer.old }
    ensures { Wrote answer.old at (line letter number exposure) result answer.new }
{
    let a = put(answer, at, &[letter, b' ']);
    let b = put_digits(answer, a, number as u64);
    let d = put(answer, b, b" ");
    let e = put_signed(answer, d, exposure);
    put(answer, e, b"\n")
}

// Writes the line that names the place where the calls end, and returns the place after it.
pub(crate) fn put_closing(answer: &mut [u8], at: usize, place: usize) -> usize
    requires { at + length (closing place) ≤ length answer.old }
    ensures { Wrote answer.old at (closing place) result answer.new }
{
    let a = put(answer, at, b"X 51 ");
    let b = put_digits(answer, a, place as u64);
    put(answer, b, b"\n")
}
