// Reading the header of a file.
ghost use Rattle.std.specs.Prelude.{◌≡◌, ◌≤◌, length, take, IfSome};
ghost use Rattle.std.specs.Option.{option_map};
ghost use Rattle.dayformat.specs.Headers.{opened, opened_of, header, lent_head, head_of};
ghost use Rattle.dayformat.specs.Valuations.{rates_valued, pages_valued, valued_by, valued_of, placed, Inside};

use crate::header::{Header, LentHeader, LentValuation, MOST_RIGHTS, Valuation};
use crate::packed::RIGHT_BYTES;
use crate::records::Records;
use market::right::Right;
use prices::page::STRETCH_BYTES;

pub const MOST_BYTES: usize = 65_536;

pub use prices::page::POINTS as MOST_POINTS;

// The limit and how many rights follow, behind the mark and the version, and what is behind them.
fn opening(file: &[u8]) -> Option<(i64, u16, &[u8])>
    ensures { option_map opened_of result ≡ opened file.now }
{
    let [b'D', b'C', b'B', 1, 0, rest @ ..] = file else {
        return None;
    };
    let (limit, rest) = rest.split_first_chunk::<8>()?;
    let (count, rest) = rest.split_first_chunk::<2>()?;
    Some((i64::from_le_bytes(*limit), u16::from_le_bytes(*count), rest))
}

// Four rates behind the byte of their rule, and what follows them.
fn read_rates(bytes: &[u8]) -> Option<(LentValuation<'_>, &[u8])>
    ensures { option_map valued_of result ≡ rates_valued bytes.now }
{
    let [bid, offer, three_part, path, ..] = bytes.as_chunks::<4>().0 else {
        return None;
    };
    let prices = [
        i32::from_le_bytes(*bid),
        i32::from_le_bytes(*offer),
        i32::from_le_bytes(*three_part),
        i32::from_le_bytes(*path),
    ];
    Some((LentValuation::Rates(prices), &bytes[16..]))
}

// Three factors, a count of points and two pages behind the byte of their rule, and what follows them.
fn read_pages(bytes: &[u8]) -> Option<(LentValuation<'_>, &[u8])>
    ensures { option_map valued_of result ≡ pages_valued bytes.now }
{
    let [e1, e2, e3, points, pages @ ..] = bytes else {
        return None;
    };
    let points = *points as usize;
    if points < 1 || points > MOST_POINTS {
        return None;
    }
    let (day_ahead, rest) = pages.split_at_checked(STRETCH_BYTES * points)?;
    let (real_time, calls) = rest.split_at_checked(STRETCH_BYTES * points)?;
    let factors = [*e1, *e2, *e3];
    Some((
        LentValuation::Protocol {
            factors,
            day_ahead,
            real_time,
        },
        calls,
    ))
}

// What the rule byte brings, and what follows it.
fn read_valuation(bytes: &[u8]) -> Option<(LentValuation<'_>, &[u8])>
    ensures { option_map valued_of result ≡ valued_by bytes.now }
{
    match bytes {
        [1, rest @ ..] => read_rates(rest),
        [2, rest @ ..] => read_pages(rest),
        _ => None,
    }
}

// The header that a file opens with; none where it is cut, or its mark, version, count or rule is unfit.
pub fn lend_header(file: &[u8]) -> Option<LentHeader<'_>>
    ensures value { option_map lent_head result ≡ header file.now }
    ensures short { IfSome result (λ h. length file.now ≤ 65536) }
    ensures inside { IfSome result (λ h. length h.calls.now ≤ length file.now) }
{
    if file.len() > MOST_BYTES {
        return None;
    }
    let (limit, count, rest) = opening(file)?;
    let count = count as usize;
    if count > MOST_RIGHTS {
        return None;
    }
    let (rights, rest) = rest.split_at_checked(RIGHT_BYTES * count)?;
    let (valuation, calls) = read_valuation(rest)?;
    Some(LentHeader {
        limit,
        rights: Records {
            bytes: rights.as_chunks::<RIGHT_BYTES>().0,
        },
        valuation,
        calls,
    })
}

// By places in a file whose calls begin at `length`.
fn placed(valuation: LentValuation<'_>, length: usize) -> Valuation
    ensures { result ≡ placed length valuation.entry }
{
    match valuation {
        LentValuation::Rates(prices) => Valuation::Rates(prices),
        LentValuation::Protocol {
            factors,
            day_ahead,
            real_time,
        } => Valuation::Protocol {
            factors,
            points: day_ahead.len() / STRETCH_BYTES,
            pages: length.saturating_sub(2 * day_ahead.len()),
        },
    }
}

// The rights from the first place on, and blank rights behind them.
fn held(read: &[Right]) -> [Right; MOST_RIGHTS]
    requires { length read.now ≤ 200 }
    ensures { take (length read.now) result ≡ read.now }
{
    let mut rights = [Right::default(); MOST_RIGHTS];
    rights[..read.len()].copy_from_slice(read);
    rights
}

// The same header by its places in the file, for callers that keep it longer than the file.
pub fn read_header(file: &[u8]) -> Option<Header>
    ensures value { option_map (head_of file.now) result ≡ header file.now }
    ensures short { IfSome result (λ h. length file.now ≤ 65536) }
    ensures inside { IfSome result (λ h. Inside (length file.now) h.valuation) }
    ensures calls { IfSome result (λ h. h.length ≤ length file.now) }
{
    let header = lend_header(file)?;
    let rights = header.rights.read::<Right>();
    let length = file.len() - header.calls.len();
    Some(Header {
        limit: header.limit,
        rights: held(&rights),
        count: rights.len(),
        valuation: placed(header.valuation, length),
        length,
    })
}
