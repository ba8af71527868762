// A call as the file has it.
use crate::packed::STEP_BYTES;
use crate::records::Records;
use market::kind::Figures;

// So many steps fit the byte that counts them.
pub const MOST_FILED_STEPS: usize = 255;

#[derive(Clone, Copy)]
pub enum Call<'a> {
    Submit {
        figures: Figures,
        steps: Records<'a, STEP_BYTES, MOST_FILED_STEPS>,
    },
    Withdraw(u32),
    OpenBatch,
    KeepBatch,
    CancelBatch,
    Limit(i64),
}
