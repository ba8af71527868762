// What an accepted submission brings.
use market::units::Tenths;

#[derive(Clone, Copy, PartialEq, Eq, Debug)]
pub struct Accepted {
    pub exposure: i64,
    pub cover: Tenths,
}
