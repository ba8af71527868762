// What the examples of the book start from: a right, a book, submissions, and a rule of one value.
use crate::fixed::Fixed;
use book::answer::Accepted;
use book::refusal::Refusal;
use book::state::{Book, Room};
use exposure::rates::Rates;
use market::kind::Figures;
use market::right::{PathHour, Right};
use market::step::Step;
use market::submission::Submission;
use std::alloc::Global;
use std::test::Fail;

pub(crate) const PATH: PathHour = PathHour {
    source: 1,
    sink: 2,
    hour: 5,
};

pub(crate) const RIGHT: Right = Right {
    path: PATH,
    tenths: 300,
};

pub(crate) fn rates() -> Result<Rates, Fail> {
    Ok(Rates::make([100, 0, -50, 200])?)
}

// A book, or what refuses its opening.
pub(crate) fn opening(heap: Global, limit: i64, rights: &[Right]) -> Result<Book, Refusal> {
    let room = Room::reserve(heap)?;
    Book::open(room, limit, rights).map_err(|unopened| unopened.refusal)
}

pub(crate) fn opened(heap: Global, limit: i64, rights: &[Right]) -> Result<Book, Fail> {
    Ok(opening(heap, limit, rights)?)
}

// An energy bid of one tenth.
pub(crate) fn bid(number: u32) -> Result<Submission, Fail> {
    let figures = Figures {
        number,
        qse: 1,
        kind: 1,
        hour: 1,
        source: 1,
        sink: 0,
        claim: 0,
    };
    let one = Step {
        quantity: 1,
        price: 1,
    };
    Ok(Submission::make(figures, &[one])?)
}

// A point-to-point bid on the path and hour, at a price. The claim is the figure as it comes.
pub(crate) fn claiming(
    number: u32,
    claim: u8,
    quantity: u32,
    price: i32,
) -> Result<Submission, Fail> {
    let figures = Figures {
        number,
        qse: 1,
        kind: 4,
        hour: 5,
        source: 1,
        sink: 2,
        claim,
    };
    Ok(Submission::make(figures, &[Step { quantity, price }])?)
}

// What submitting a bid of an exposure answers.
pub(crate) fn tried(
    book: &mut Book,
    number: u32,
    exposure: i64,
) -> Result<Result<Accepted, Refusal>, Fail> {
    let mut rule = Fixed::new(exposure);
    Ok(book.submit(&mut rule, bid(number)?))
}
