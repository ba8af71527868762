// Reading the calls of a file, one at a time.
ghost use Rattle.std.specs.Prelude.{◌≡◌, ◌<◌, length, Some, None};
ghost use Rattle.dayformat.specs.Calls.{first_call};
ghost use Rattle.dayformat.specs.Filed.{means};

use crate::call::Call;
pub use crate::packed::STEP_BYTES;
use crate::records::Records;
use market::kind::Figures;

// The call that bytes open with, and what follows it; none where the letter is unknown or the call is cut.
// Inlined: as a call of its own it was a fifth of the work of a short line.
#[inline(always)]
pub fn next_call(bytes: &[u8]) -> Option<(Call<'_>, &[u8])>
    ensures reads { elim result [ Some p ↦ ((first_call bytes.now ≡ Some (means p.0, p.1.now)) × (length p.1.now < length bytes.now)) | None ↦ first_call bytes.now ≡ None ] }
{
    match bytes {
        [
            b'S',
            n0,
            n1,
            n2,
            n3,
            qse,
            kind,
            hour,
            s0,
            s1,
            t0,
            t1,
            claim,
            count,
            rest @ ..,
        ] => {
            let figures = Figures {
                number: u32::from_le_bytes([*n0, *n1, *n2, *n3]),
                qse: *qse,
                kind: *kind,
                hour: *hour,
                source: u16::from_le_bytes([*s0, *s1]),
                sink: u16::from_le_bytes([*t0, *t1]),
                claim: *claim,
            };
            let (steps, rest) = rest.split_at_checked(STEP_BYTES * *count as usize)?;
            let steps = Records {
                bytes: steps.as_chunks::<STEP_BYTES>().0,
            };
            Some((Call::Submit { figures, steps }, rest))
        }
        [b'W', n0, n1, n2, n3, rest @ ..] => {
            Some((
                Call::Withdraw(u32::from_le_bytes([*n0, *n1, *n2, *n3])),
                rest,
            ))
        }
        [b'O', rest @ ..] => Some((Call::OpenBatch, rest)),
        [b'K', rest @ ..] => Some((Call::KeepBatch, rest)),
        [b'C', rest @ ..] => Some((Call::CancelBatch, rest)),
        [b'L', l0, l1, l2, l3, l4, l5, l6, l7, rest @ ..] => {
            let limit = i64::from_le_bytes([*l0, *l1, *l2, *l3, *l4, *l5, *l6, *l7]);
            Some((Call::Limit(limit), rest))
        }
        _ => None,
    }
}
