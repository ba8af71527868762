// Records of a fixed number of bytes, as they lie in a file: none is read before it is asked for.
ghost use Rattle.std.specs.Prelude.{◌<◌, ◌≤◌, length};

// At most `MOST` records of `SIZE` bytes each, a size that a reference can reach over.
#[derive(Clone, Copy)]
pub struct Records<'a, const SIZE: usize, const MOST: usize> {
    pub(crate) bytes: &'a [[u8; SIZE]],
    ghost few: { length bytes.now ≤ MOST },
    ghost reached: { 0 < length bytes.now → SIZE < 9223372036854775808 },
}
