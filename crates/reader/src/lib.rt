// Reads a drawing's text into the tables of its caller.
#![tactic(auto)]

mod check;
mod fill;
mod line;
mod lines;
mod number;
mod word;

ghost use Rattle.std.specs.Prelude.{◌≡◌, length};
ghost use Rattle.records.specs.Faults.{told};
ghost use Rattle.reader.specs.Reading.{count_values, reading_answer, reading_actors, reading_links};

use check::{Numbers, Order, Room, Shape, pass};
use fill::fill;
pub use lines::Lines;
pub use number::written_number;
use records::{Actor, Fault, Layer, Link, Refusal};

// The longest text that is read, in bytes.
const MOST_BYTES: usize = 8192;

// The most actors that a drawing may have.
const MOST_ACTORS: usize = 64;

// The most links that a drawing may have.
const MOST_LINKS: usize = 256;

/// What a text held: how many actors and links it wrote into the tables, and its lead.
#[derive(Clone, Copy, PartialEq, Eq, Debug)]
pub struct Counts {
    pub actors: usize,
    pub links: usize,
    /// The number of the `R` line, and 1 where there is none.
    pub lead: u32,
}

/// Reads a drawing's text into the tables, and answers how much it read.
///
/// A text is a sequence of lines, each ended by a line feed: `R lead`, which may only stand first, then `A processor
/// estimate` for each actor, then `L sender receiver delay` for each link. One space follows the letter and one parts
/// words. A word is a number of one to seven digits with no zero before others.
///
/// The text is refused, in this order and each time at the first line at fault, counted from 1: 1 for a text of more
/// than 8,192 bytes (at 0), an unknown letter, a missing space or line feed, or a wrong count of words; 2 for a word
/// that is no number; 3 for an `R` line that is not the first or an `A` line after an `L` line; 4 for more than 64
/// actors or 256 links, or more than a table holds. Each is looked for in the whole text before the next.
///
/// The records stand at the fronts of the tables, links with mark 0 and size 0, and later records are left as they
/// were. A refusal leaves both tables as they were.
#[tactic(auto, unfolding(crate::specs::Reading::reading))]
pub fn read(text: &[u8], actors: &mut [Actor], links: &mut [Link]) -> Result<Counts, Fault>
    ensures answer { result ≡ reading_answer text.now (length actors.old) (length links.old) }
    ensures view { told count_values result ≡ told count_values (reading_answer text.now (length actors.old) (length links.old)) }
    ensures actors { actors.new ≡ reading_actors text.now actors.old links.old }
    ensures links { links.new ≡ reading_links text.now actors.old links.old }
{
    if text.len() > MOST_BYTES {
        return Err(Fault::new(Refusal::Misshaped, Layer::Text, 0));
    }
    pass(text, Shape)?;
    pass(text, Numbers)?;
    pass(text, Order { linked: false })?;
    let room = Room {
        actors: actors.len().min(MOST_ACTORS),
        links: links.len().min(MOST_LINKS),
    };
    pass(text, room)?;
    fill(text, actors, links)
}
