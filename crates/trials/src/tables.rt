// The tables that a stored run is planned in, and the changes that are made in them.
ghost use Rattle.std.specs.Prelude.{◌≡◌, ◌≤◌, length};
ghost use Rattle.std.specs.Iterator.{at_most};
ghost use Rattle.words.specs.Words.{after_word, text_left};

use paths::{Delay, Reach};
use records::{Actor, Link};
use words::Words;

pub const ACTORS: usize = 128;

pub const LINKS: usize = 512;

pub const PAIRS: usize = 4096;

/// The memory that a stored run is planned in: arrays, which a program brings to a library that allocates nothing.
#[derive(Drop)]
pub struct Tables {
    pub actors: [Actor; ACTORS],
    pub links: [Link; LINKS],
    pub delays: [Delay; PAIRS],
    pub reach: [Reach; PAIRS],
}

// The next number, or the largest that a record can hold.
fn small_number(words: &mut Words<'_>) -> u32
    ensures { text_left words.new ≡ after_word (text_left words.old) }
{
    u32::try_from(words.number()).unwrap_or(u32::MAX)
}

// One change: what is put in the place of what planning left.
#[derive(Clone, Copy)]
enum Replacement {
    // The processor of the actor with this number.
    Processor(usize, u32),
    // The whole link with this number.
    Link(usize, Link),
}

fn change_of_actor(words: &mut Words<'_>) -> Replacement
    ensures { length (text_left words.new) ≤ length (text_left words.old) }
{
    Replacement::Processor(words.number(), small_number(words))
}

fn change_of_link(words: &mut Words<'_>) -> Replacement
    ensures { length (text_left words.new) ≤ length (text_left words.old) }
{
    let number = words.number();
    let link = Link {
        sender: small_number(words),
        receiver: small_number(words),
        delay: small_number(words),
        // A number, since runs are opened on bad marks on purpose.
        mark: u8::try_from(words.number()).unwrap_or(u8::MAX),
        size: small_number(words),
    };
    Replacement::Link(number, link)
}

// The changes that are left, wherever lines end.
#[derive(Drop)]
struct Changes<'a> {
    words: Words<'a>,
}

impl<'a> Iterator for Changes<'a> {
    type Item = Replacement;

    ghost remaining = { λ changes. at_most (length (text_left changes.words)) };

    fn next(&mut self) -> Option<Replacement> {
        let words = &mut self.words;
        if words.is_empty() {
            return None;
        }
        if words.word() == b"a".as_slice() {
            Some(change_of_actor(words))
        } else {
            Some(change_of_link(words))
        }
    }
}

/// Makes the changes: `a I PROCESSOR` and `l I SENDER RECEIVER DELAY MARK SIZE`.
pub fn change(changes: &[u8], actors: &mut [Actor], links: &mut [Link]) {
    let words = Words::new(changes);
    for replacement in (Changes { words }) {
        match replacement {
            Replacement::Processor(number, processor) => {
                if let Some(actor) = actors.get_mut(number) {
                    actor.processor = processor;
                }
            }
            Replacement::Link(number, link) => {
                if let Some(changed) = links.get_mut(number) {
                    *changed = link;
                }
            }
        }
    }
}
