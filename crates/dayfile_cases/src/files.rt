// Examples of whole day files. The header has the limit 10,000,000, no rights and the rates
// 100, 0, −50 and 200, in 32 bytes.
use book::state::Room;
use dayfile::refusal::Refusal;
use dayfile::run::run;
use std::alloc::Global;
use std::test::Fail;

const HEADER: &[u8] = b"DCB\x01\x00\x80\x96\x98\x00\x00\x00\x00\x00\x00\x00\x01\
    \x64\x00\x00\x00\x00\x00\x00\x00\xce\xff\xff\xff\xc8\x00\x00\x00";

// A call: a submission of one step, a withdrawal, a limit.
const SUBMIT: &[u8] =
    b"S\x07\x00\x00\x00\x01\x01\x01\x01\x00\x00\x00\x00\x01\xe8\x03\x00\x00\xf4\x01\x00\x00";

const WITHDRAW: &[u8] = b"W\x07\x00\x00\x00";

const LIMIT: &[u8] = b"L\xe8\x03\x00\x00\x00\x00\x00\x00";

// What the answer holds before a run.
const OLD: u8 = 7;

// Whether a file yields just these lines, and leaves what is past them.
fn yields(heap: Global, file: &[u8], lines: &[u8]) -> Result<bool, Fail> {
    let room = Room::reserve(heap)?;
    let mut answer = vec![in heap; OLD; 49_153]?;
    let ran = run(room, file, &mut answer);
    Ok(ran.is_ok_and(|count| {
        count == lines.len() && answer.starts_with(lines) && answer[count] == OLD
    }))
}

// The header and then bytes, with so many copies of them.
fn repeated(heap: Global, bytes: &[u8], times: u16) -> Result<Vec<u8>, Fail> {
    let mut file = Vec::from_slice(heap, HEADER)?;
    for _ in 0..times {
        file.extend_from_slice(bytes)?;
    }
    Ok(file)
}

#[test]
fn calls_yield_lines(rt: HostRuntime) -> Result<(), Fail> {
    let heap = rt.alloc();
    assert!(rt; yields(heap, &repeated(heap, SUBMIT, 1)?, b"S 0 10000000\n")?);
    assert!(rt; yields(heap, &repeated(heap, WITHDRAW, 1)?, b"W 23 0\n")?);
    assert!(rt; yields(heap, &repeated(heap, LIMIT, 1)?, b"L 0 0\n")?);
    Ok(())
}

#[test]
fn batches_open_and_end(rt: HostRuntime) -> Result<(), Fail> {
    let heap = rt.alloc();
    assert!(rt; yields(heap, &repeated(heap, b"O", 2)?, b"O 0 0\nO 31 0\n")?);
    assert!(rt; yields(heap, &repeated(heap, b"K", 1)?, b"K 32 0\n")?);
    assert!(rt; yields(heap, &repeated(heap, b"C", 1)?, b"C 32 0\n")?);
    assert!(rt; yields(heap, &repeated(heap, b"OKC", 1)?, b"O 0 0\nK 0 0\nC 32 0\n")?);
    Ok(())
}

// The header, an open batch and a submission, and then bytes.
fn batched(heap: Global, bytes: &[u8]) -> Result<Vec<u8>, Fail> {
    let mut file = Vec::from_slice(heap, HEADER)?;
    file.push(b'O')?;
    file.extend_from_slice(SUBMIT)?;
    file.extend_from_slice(bytes)?;
    Ok(file)
}

#[test]
fn a_batch_is_kept_or_cancelled(rt: HostRuntime) -> Result<(), Fail> {
    let heap = rt.alloc();
    assert!(rt;
        yields(
            heap,
            &batched(heap, b"K")?,
            b"O 0 0\nS 0 10000000\nK 0 10000000\n"
        )?
    );
    assert!(rt; yields(heap, &batched(heap, b"C")?, b"O 0 0\nS 0 10000000\nC 0 0\n")?);
    assert!(rt;
        yields(
            heap,
            &batched(heap, LIMIT)?,
            b"O 0 0\nS 0 10000000\nL 31 10000000\n"
        )?
    );
    assert!(rt;
        yields(
            heap,
            &batched(heap, b"CW\x07\x00\x00\x00")?,
            b"O 0 0\nS 0 10000000\nC 0 0\nW 23 0\n",
        )?
    );
    Ok(())
}

#[test]
fn a_header_alone_yields_nothing(rt: HostRuntime) -> Result<(), Fail> {
    assert!(rt; yields(rt.alloc(), HEADER, b"")?);
    Ok(())
}

#[test]
fn a_cut_header_at_every_byte(rt: HostRuntime) -> Result<(), Fail> {
    // n is the length of the cut file: there is nothing to go through but the lengths.
    for n in 0..32 {
        assert!(rt; HEADER.len() == 32);
        assert!(rt; yields(rt.alloc(), &HEADER[0..n], b"X 51 0\n")?);
    }
    Ok(())
}

// Whether each cut of a file's one call, whose letter stands at 32, closes the lines there.
fn cut_everywhere(heap: Global, file: &[u8]) -> Result<bool, Fail> {
    // n is the length of the cut file: there is nothing to go through but the lengths.
    for n in 33..file.len() {
        if !yields(heap, &file[0..n], b"X 51 32\n")? {
            return Ok(false);
        }
    }
    Ok(true)
}

#[test]
fn a_cut_call_at_every_byte(rt: HostRuntime) -> Result<(), Fail> {
    let heap = rt.alloc();
    assert!(rt; cut_everywhere(heap, &repeated(heap, SUBMIT, 1)?)?);
    assert!(rt; cut_everywhere(heap, &repeated(heap, WITHDRAW, 1)?)?);
    assert!(rt; cut_everywhere(heap, &repeated(heap, LIMIT, 1)?)?);
    Ok(())
}

#[test]
fn unfit_headers(rt: HostRuntime) -> Result<(), Fail> {
    let heap = rt.alloc();
    let mark =
        b"DCA\x01\x00\x80\x96\x98\x00\x00\x00\x00\x00\x00\x00\x01\x64\x00\x00\x00\x00\x00\x00\x00\xce\xff\xff\xff\xc8\x00\x00\x00";
    let version =
        b"DCB\x02\x00\x80\x96\x98\x00\x00\x00\x00\x00\x00\x00\x01\x64\x00\x00\x00\x00\x00\x00\x00\xce\xff\xff\xff\xc8\x00\x00\x00";
    let limit =
        b"DCB\x01\x00\x80\x96\x98\x00\x00\x00\x00\x80\x00\x00\x01\x64\x00\x00\x00\x00\x00\x00\x00\xce\xff\xff\xff\xc8\x00\x00\x00";
    let rule =
        b"DCB\x01\x00\x80\x96\x98\x00\x00\x00\x00\x00\x00\x00\x02\x64\x00\x00\x00\x00\x00\x00\x00\xce\xff\xff\xff\xc8\x00\x00\x00";
    let rate =
        b"DCB\x01\x00\x80\x96\x98\x00\x00\x00\x00\x00\x00\x00\x01\x41\x42\x0f\x00\x00\x00\x00\x00\xce\xff\xff\xff\xc8\x00\x00\x00";
    assert!(rt; yields(heap, mark, b"X 51 0\n")?);
    assert!(rt; yields(heap, version, b"X 51 0\n")?);
    assert!(rt; yields(heap, limit, b"X 51 0\n")?);
    assert!(rt; yields(heap, rule, b"X 51 0\n")?);
    assert!(rt; yields(heap, rate, b"X 51 0\n")?);
    Ok(())
}

#[test]
fn unknown_letters_end_the_lines(rt: HostRuntime) -> Result<(), Fail> {
    let heap = rt.alloc();
    let letter = repeated(heap, b"Q", 1)?;
    let small = repeated(heap, b"o", 1)?;
    let lower = repeated(heap, b"w\x07\x00\x00\x00", 1)?;
    let newline = repeated(heap, b"W\x07\x00\x00\x00\n", 2)?;
    assert!(rt; yields(heap, &letter, b"X 51 32\n")?);
    assert!(rt; yields(heap, &small, b"X 51 32\n")?);
    assert!(rt; yields(heap, &lower, b"X 51 32\n")?);
    assert!(rt; yields(heap, &newline, b"W 23 0\nX 51 37\n")?);
    Ok(())
}

#[test]
fn two_thousand_calls_and_no_more(rt: HostRuntime) -> Result<(), Fail> {
    let heap = rt.alloc();
    let most = repeated(heap, WITHDRAW, 2000)?;
    let more = repeated(heap, WITHDRAW, 2001)?;
    let room = Room::reserve(heap)?;
    let mut answer = vec![in heap; OLD; 49_152]?;
    // 2,000 lines of seven bytes.
    assert_eq!(rt; run(room, &most, &mut answer), Ok(14_000));
    let room = Room::reserve(heap)?;
    // The 2,001st call stands at 32 + 2,000 · 5.
    assert_eq!(rt; run(room, &more, &mut answer), Ok(14_011));
    assert!(rt; answer[14_000..14_011].starts_with(b"X 51 10032\n"));
    Ok(())
}

#[test]
fn the_longest_file(rt: HostRuntime) -> Result<(), Fail> {
    let heap = rt.alloc();
    let longest = repeated(heap, b"\x00", 65_504)?;
    let longer = repeated(heap, b"\x00", 65_505)?;
    assert_eq!(rt; longest.len(), 65_536);
    assert!(rt; yields(heap, &longest, b"X 51 32\n")?);
    assert!(rt; yields(heap, &longer, b"X 51 0\n")?);
    Ok(())
}

#[test]
fn a_small_answer_is_left_as_it_was(rt: HostRuntime) -> Result<(), Fail> {
    let heap = rt.alloc();
    let file = repeated(heap, SUBMIT, 1)?;
    let room = Room::reserve(heap)?;
    let mut answer = vec![in heap; OLD; 49_151]?;
    assert_eq!(rt; run(room, &file, &mut answer), Err(Refusal::AnswerTooSmall));
    assert!(rt;
        answer.iter().copied().max() == Some(OLD) && answer.iter().copied().min() == Some(OLD)
    );
    Ok(())
}

#[test]
fn refused_submissions_yield_their_numbers(rt: HostRuntime) -> Result<(), Fail> {
    let heap = rt.alloc();
    // Hour 25, kind 5, no step, a claim of 2.
    let hour = repeated(
        heap,
        b"S\x07\x00\x00\x00\x01\x01\x19\x01\x00\x00\x00\x00\x00",
        1,
    )?;
    let kind = repeated(
        heap,
        b"S\x07\x00\x00\x00\x01\x05\x01\x01\x00\x00\x00\x00\x00",
        1,
    )?;
    let none = repeated(
        heap,
        b"S\x07\x00\x00\x00\x01\x01\x01\x01\x00\x00\x00\x00\x00",
        2,
    )?;
    let claim = repeated(
        heap,
        b"S\x07\x00\x00\x00\x01\x01\x01\x01\x00\x00\x00\x02\x00",
        1,
    )?;
    assert!(rt; yields(heap, &hour, b"S 11 0\n")?);
    assert!(rt; yields(heap, &kind, b"S 12 0\n")?);
    assert!(rt; yields(heap, &none, b"S 13 0\nS 13 0\n")?);
    assert!(rt; yields(heap, &claim, b"S 12 0\n")?);
    Ok(())
}

// A header with limit 100,000,000, no rights, the factors 60, 20 and 100 and so many points, and then
// two pages for them: day-ahead cells of 4,000 and real-time cells of 4,800.
fn paged(heap: Global, points: u8) -> Result<Vec<u8>, Fail> {
    let mut file = Vec::from_slice(
        heap,
        b"DCB\x01\x00\x00\xe1\xf5\x05\x00\x00\x00\x00\x00\x00\x02\x3c\x14\x64",
    )?;
    file.push(points)?;
    for cell in [b"\xa0\x0f\x00\x00", b"\xc0\x12\x00\x00"] {
        for _ in 0..720 * points as u32 {
            file.extend_from_slice(cell)?;
        }
    }
    Ok(file)
}

#[test]
fn pages_value_submissions(rt: HostRuntime) -> Result<(), Fail> {
    let heap = rt.alloc();
    let mut file = paged(heap, 1)?;
    assert!(rt; yields(heap, &file, b"")?);
    // An energy bid of 100 tenths at 5,000 at point 1: 100 · (100 · 4000 + 60 · 1000).
    file.extend_from_slice(
        b"S\x07\x00\x00\x00\x01\x01\x07\x01\x00\x00\x00\x00\x01\x64\x00\x00\x00\x88\x13\x00\x00",
    )?;
    // The same at point 2, which the pages do not know.
    file.extend_from_slice(
        b"S\x08\x00\x00\x00\x01\x01\x07\x02\x00\x00\x00\x00\x01\x64\x00\x00\x00\x88\x13\x00\x00",
    )?;
    assert!(rt; yields(heap, &file, b"S 0 46000000\nS 24 46000000\n")?);
    Ok(())
}

#[test]
fn pages_in_range(rt: HostRuntime) -> Result<(), Fail> {
    let heap = rt.alloc();
    let none = paged(heap, 0)?;
    let most = paged(heap, 8)?;
    let more = paged(heap, 9)?;
    assert!(rt; yields(heap, &none, b"X 51 0\n")?);
    assert!(rt; yields(heap, &most, b"")?);
    assert!(rt; yields(heap, &more, b"X 51 0\n")?);
    assert!(rt; most.len() == 46_100);
    assert!(rt; yields(heap, &most[0..46_099], b"X 51 0\n")?);
    Ok(())
}
