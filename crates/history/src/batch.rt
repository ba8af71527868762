// The calls that open a batch, and that end it.

#[derive(Clone, Copy)]
pub enum BatchCall {
    Open,
    Keep,
    Cancel,
}
