// Rehearses the drawing on standard input: makes the calls that follow it in a run of its plan, and prints the answers.
#![tactic(auto)]

mod answer;
mod call;
mod calls;
mod desk;
mod holding;
mod parts;
mod report;

use answer::{MOST_BYTES, answer};
use std::io;
use std::io::{Read, Write};

fn main(rt: HostRuntime) -> io::Result<()> {
    let mut input = Vec::new(rt.alloc());
    // One byte more shows that an input is too long.
    let limit = MOST_BYTES as u64 + 1;
    rt.stdin().take(limit).read_to_end(&mut input)?;
    let told = answer(rt.alloc(), input.as_slice())?;
    rt.stdout().write_all(told.as_bytes())
}
