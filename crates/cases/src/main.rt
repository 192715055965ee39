// Compares the library with the listings of a second program, case by case, and prints how many agree.
#![tactic(auto)]

mod blocks;
mod trial;

use blocks::Cases;
use paths::{Algebra, Delay, Reach};
use records::{Actor, Link};
use std::{fs, io};
use trial::{ACTORS, LINKS, Memory, OUT, PAIRS};

fn main(rt: HostRuntime) -> io::Result<()> {
    let data = fs::read(&rt, "cases.txt")?;
    // Made here and not by a function, whose answer of this size would lie on the stack more than once.
    let mut memory = Memory {
        actors: [Actor::default(); ACTORS],
        links: [Link::default(); LINKS],
        delays: [Delay::stay(); PAIRS],
        reach: [Reach::none(); PAIRS],
        out: [0; OUT],
    };
    let mut tried = 0u32;
    let mut agreed = 0u32;
    for case in Cases::of(data.as_slice()) {
        tried = tried.saturating_add(1);
        if memory.agrees(&case) {
            agreed = agreed.saturating_add(1);
        }
    }
    println!(rt; "{agreed} of {tried} cases agree")
}
