// What an accepted submission brings.
pub use history::accepted::Accepted;
