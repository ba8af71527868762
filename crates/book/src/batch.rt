// The state of a book's batch.

#[derive(Clone, Copy)]
pub(crate) enum Batch {
    Plain,
    Open,
}
