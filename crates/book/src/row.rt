// A row of the book, and how many it holds at most.
pub use rights::row::Row;

pub const MOST_ROWS: usize = 500;
