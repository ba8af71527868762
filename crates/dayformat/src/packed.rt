// Records of a fixed number of bytes, one behind the other. Numbers have their lowest byte first.
ghost use Rattle.std.specs.Prelude.{◌≡◌, ℕ, ◌/◌, ◌<◌, List, map, length, take};
ghost use Rattle.std.specs.Simd.{first_chunks};
ghost use Rattle.dayformat.specs.Headers.{right_of};
ghost use Rattle.dayformat.specs.Steps.{step_of};

use crate::records::Records;
use arrayvec::ArrayVec;
use market::right::{PathHour, Right};
use market::step::Step;

pub const STEP_BYTES: usize = 8;

pub const RIGHT_BYTES: usize = 9;

// What is read from a record of so many bytes.
pub trait Packed<const SIZE: usize>: Copy + Default {
    // What the bytes of a record say.
    ghost of: { List ℕ → Self };

    fn read(bytes: &[u8; SIZE]) -> Self
        ensures { result ≡ of bytes.now };
}

impl Packed<STEP_BYTES> for Step {
    ghost of = { step_of };

    fn read(bytes: &[u8; STEP_BYTES]) -> Step {
        let [q0, q1, q2, q3, p0, p1, p2, p3] = *bytes;
        Step {
            quantity: u32::from_le_bytes([q0, q1, q2, q3]),
            price: i32::from_le_bytes([p0, p1, p2, p3]),
        }
    }
}

impl Packed<RIGHT_BYTES> for Right {
    ghost of = { right_of };

    fn read(bytes: &[u8; RIGHT_BYTES]) -> Right {
        let [s0, s1, t0, t1, hour, n0, n1, n2, n3] = *bytes;
        let (source, sink) = (u16::from_le_bytes([s0, s1]), u16::from_le_bytes([t0, t1]));
        Right {
            path: PathHour { source, sink, hour },
            tenths: u32::from_le_bytes([n0, n1, n2, n3]),
        }
    }
}

impl<'a, const SIZE: usize, const MOST: usize> Records<'a, SIZE, MOST> {
    // The records that bytes begin with: as many as are whole, and at most `MOST`.
    pub fn of(bytes: &'a [u8]) -> Self
        ensures { 0 < SIZE → result.bytes.now ≡ take MOST (first_chunks SIZE (length bytes.now / SIZE) bytes.now) }
    {
        if SIZE == 0 || bytes.len() < SIZE {
            return Records { bytes: &[] };
        }
        let (records, _) = bytes.as_chunks::<SIZE>();
        Records {
            bytes: &records[..records.len().min(MOST)],
        }
    }

    // What is read from each, in order.
    pub fn read<T: Packed<SIZE>>(&self) -> ArrayVec<T, MOST>
        ensures { result.items ≡ map T.of self.now.bytes.now }
    {
        let mut read = ArrayVec::new();
        for record in self.bytes {
            read.push(T::read(record));
        }
        read
    }
}
