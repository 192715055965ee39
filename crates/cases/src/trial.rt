// One case tried: the listing in memory of just the lengths that the case asks for.
use crate::blocks::{Case, Expected};
use listing::list;
use paths::{Delay, Reach};
use records::{Actor, Link, Refusal};

pub const ACTORS: usize = 128;

pub const LINKS: usize = 512;

pub const PAIRS: usize = 8192;

pub const OUT: usize = 32768;

/// What is lent, of which each case uses the front: arrays, which a program brings to a library that allocates nothing.
#[derive(Drop)]
pub struct Memory {
    pub actors: [Actor; ACTORS],
    pub links: [Link; LINKS],
    pub delays: [Delay; PAIRS],
    pub reach: [Reach; PAIRS],
    pub out: [u8; OUT],
}

// A byte that no listing has.
const UNTOUCHED: u8 = 0xaa;

// Whether the output begins with the bytes, and holds nothing else.
fn holds(out: &[u8], bytes: &[u8]) -> bool {
    match out.strip_prefix(bytes) {
        Some(rest) => rest.iter().all(|b| *b == UNTOUCHED),
        None => false,
    }
}

impl Memory {
    /// Whether the library answers what the case expects, and leaves the rest of the output as it was.
    pub fn agrees(&mut self, case: &Case) -> bool {
        self.out.fill(UNTOUCHED);
        let actors = case.actors.min(ACTORS);
        let links = case.links.min(LINKS);
        let delays = case.delays.min(PAIRS);
        let reach = case.reach.min(PAIRS);
        let out = case.out.min(OUT);
        let answer = list(
            case.text,
            &mut self.actors[0..actors],
            &mut self.links[0..links],
            &mut self.delays[0..delays],
            &mut self.reach[0..reach],
            &mut self.out[0..out],
        );
        match (answer, case.expected) {
            (Ok(count), Expected::Listing(bytes)) => {
                count == bytes.len() && holds(&self.out, bytes)
            }
            (Err(fault), Expected::TooShort(bytes)) => {
                fault.refusal == Refusal::ShortOutput && holds(&self.out, bytes)
            }
            _ => false,
        }
    }
}
