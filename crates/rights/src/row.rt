// A row of the book.
use market::submission::Submission;
use market::units::Tenths;

// A submission that stands, with its exposure in grains and its covered tenths.
#[derive(Clone, Copy)]
pub struct Row {
    pub submission: Submission,
    pub exposure: i64,
    pub cover: Tenths,
}
