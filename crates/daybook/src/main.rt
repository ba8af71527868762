// Reads a day file from standard input, and prints its lines.
#![tactic(auto)]

use anyhow::anyhow;
use book::state::Room;
use dayfile::run::{ANSWER_BYTES, run};
use dayformat::headers::MOST_BYTES;
use std::io::{Read, Write};

// One byte more than the longest file, so that a longer one is seen to be too long.
const INPUT_BYTES: u64 = MOST_BYTES as u64 + 1;

fn answer_input(rt: &HostRuntime) -> anyhow::Result<()> {
    let heap = rt.alloc();
    let mut file = Vec::new(heap);
    rt.stdin().take(INPUT_BYTES).read_to_end(&mut file)?;
    let mut answer = vec![in heap; 0u8; ANSWER_BYTES]?;
    let room = Room::reserve(heap).map_err(|_| anyhow!("no memory for a book"))?;
    let count = run(room, &file, &mut answer).map_err(|_| anyhow!("too few answer bytes"))?;
    let mut out = rt.stdout();
    out.write_all(&answer[0..count])?;
    out.flush()?;
    Ok(())
}

fn main(rt: HostRuntime) -> anyhow::Result<()> {
    answer_input(&rt)
}
