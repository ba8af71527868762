// What refuses a call of the book.
pub use history::refusal::Refusal;
