// A page of two points. The cells that are not written here are 0.
ghost use Rattle.std.specs.Prelude.{◌+◌, ◌≤◌, length};

// Two stretches of 2,880 bytes.
pub const SAMPLE_BYTES: usize = 5760;

fn put(bytes: &mut [u8], at: usize, cell: [u8; 4])
    requires { at + 4 ≤ length bytes.old }
{
    bytes[at..at + 4].copy_from_slice(&cell);
}

pub(crate) fn two_points() -> [u8; SAMPLE_BYTES] {
    let mut bytes = [0; SAMPLE_BYTES];
    // Point 1, hour 1, days 1 to 3: 2,500, then 1,000,001, then 1,000,000.
    put(&mut bytes, 0, [0xc4, 0x09, 0x00, 0x00]);
    put(&mut bytes, 4, [0x41, 0x42, 0x0f, 0x00]);
    put(&mut bytes, 8, [0x40, 0x42, 0x0f, 0x00]);
    // Point 1, hour 2, days 1 and 2: -1,000,000, then -1,000,001.
    put(&mut bytes, 120, [0xc0, 0xbd, 0xf0, 0xff]);
    put(&mut bytes, 124, [0xbf, 0xbd, 0xf0, 0xff]);
    // Point 2, hour 24, day 30, at 2,880 + 23 · 120 + 29 · 4: -75.
    put(&mut bytes, 5756, [0xb5, 0xff, 0xff, 0xff]);
    bytes
}
