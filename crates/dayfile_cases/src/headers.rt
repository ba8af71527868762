// A header by its places, which is kept longer than its file.
use dayformat::header::{Header, Valuation};
use dayformat::headers::read_header;
use market::right::{PathHour, Right};
use std::alloc::Global;
use std::test::Fail;

// The limit 10,000,000, 300 tenths from 1 to 2 at hour 5, the rates 100, 0, −50 and 200, and a call: 15 bytes, 9 of
// the right and 17 of the rule, so that the calls begin at 41.
const RATED: &[u8] = b"DCB\x01\x00\x80\x96\x98\x00\x00\x00\x00\x00\x01\x00\
    \x01\x00\x02\x00\x05\x2c\x01\x00\x00\
    \x01\x64\x00\x00\x00\x00\x00\x00\x00\xce\xff\xff\xff\xc8\x00\x00\x00\
    W\x07\x00\x00\x00";

// No rights, the factors 10, 20 and 30, and one point: its pages begin at 20.
const FACTORED: &[u8] = b"DCB\x01\x00\x80\x96\x98\x00\x00\x00\x00\x00\x00\x00\x02\x0a\x14\x1e\x01";

// The header of bytes and so many zeroes behind them, in a file that is gone when it is returned.
fn kept(heap: Global, bytes: &[u8], zeroes: u16) -> Result<Option<Header>, Fail> {
    let mut file = Vec::from_slice(heap, bytes)?;
    for _ in 0..zeroes {
        file.push(0)?;
    }
    Ok(read_header(&file))
}

#[test]
fn rates_and_rights_outlive_the_file(rt: HostRuntime) -> Result<(), Fail> {
    let right = Right {
        path: PathHour {
            source: 1,
            sink: 2,
            hour: 5,
        },
        tenths: 300,
    };
    let header = kept(rt.alloc(), RATED, 0)?;
    assert!(rt; header.is_some_and(|header| header.limit == 10_000_000));
    assert!(rt;
        header.is_some_and(|header| {
            let first = header.rights[0];
            header.count == 1 && first == right
        })
    );
    assert!(rt; header.is_some_and(|header| header.length == 41));
    assert!(rt;
        header.is_some_and(|header| match header.valuation {
            Valuation::Rates(prices) => prices == [100, 0, -50, 200],
            Valuation::Protocol { .. } => false,
        })
    );
    Ok(())
}

// Two pages of 2,880 bytes, and three bytes of calls behind them.
#[test]
fn pages_have_their_places(rt: HostRuntime) -> Result<(), Fail> {
    let header = kept(rt.alloc(), FACTORED, 5_763)?;
    assert!(rt; header.is_some_and(|header| header.count == 0 && header.length == 5_780));
    assert!(rt;
        header.is_some_and(|header| match header.valuation {
            Valuation::Rates(_) => false,
            Valuation::Protocol {
                factors,
                points,
                pages,
            } => factors == [10, 20, 30] && points == 1 && pages == 20,
        })
    );
    // One byte of the pages is missing.
    assert!(rt; kept(rt.alloc(), FACTORED, 5_759)?.is_none());
    Ok(())
}
