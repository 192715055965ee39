// Prints the listing of the drawing on standard input.
#![tactic(auto)]

ghost use Rattle.std.specs.Prelude.{◌≤◌, length, IfOk};

use listing::list;
use paths::{Algebra, Delay, Reach};
use records::{Actor, Link};
use std::io;
use std::io::{Read, Write};

// One byte more than the longest text: a longer input is refused like one of this length.
const TEXT: usize = 8193;

// Reads until the input ends or the buffer is full, and answers how many bytes came.
fn read_text(input: &mut impl Read, text: &mut [u8]) -> io::Result<usize>
    ensures { IfOk result (λ n. n ≤ length text.old) }
{
    let mut count = 0;
    // A loop of so many turns, and no `read_to_end`, since this program allocates nothing either.
    for _ in 0..text.len() {
        let got = input.read(&mut text[count..])?;
        if got == 0 {
            break;
        }
        count += got;
    }
    Ok(count)
}

fn main(rt: HostRuntime) -> io::Result<()> {
    let mut text = [0u8; TEXT];
    // The workspaces for a drawing of 64 actors, as the planner's callers bring them.
    let mut actors = [Actor::default(); 64];
    let mut links = [Link::default(); 271];
    let mut delays = [Delay::stay(); 4096];
    let mut reach = [Reach::none(); 4096];
    let mut out = [0u8; 16384];
    let count = read_text(&mut rt.stdin(), &mut text)?;
    match list(
        &text[..count],
        &mut actors,
        &mut links,
        &mut delays,
        &mut reach,
        &mut out,
    ) {
        Ok(bytes) => rt.stdout().write_all(&out[..bytes]),
        Err(fault) => writeln!(rt.stdout(), "{fault}"),
    }
}
