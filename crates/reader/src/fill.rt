// The tables, filled from a text that was checked.
ghost use Rattle.std.specs.Prelude.{◌≡◌, true, length, is_ok};
ghost use Rattle.reader.specs.Words.{over};
ghost use Rattle.reader.specs.Reading.{drawn, has_room, counts_of, actors_after, links_after};

use crate::Counts;
use crate::line::{Entry, Line};
use crate::lines::Lines;
use records::{Actor, Fault, Link};

/// Writes the text's records to the fronts of the tables, and counts them.
// The tables are memory of the caller, and nothing is allocated here: so a count says how far each is filled.
pub(crate) fn fill(text: &[u8], actors: &mut [Actor], links: &mut [Link]) -> Result<Counts, Fault>
    requires read { is_ok (drawn text.now) ≡ true }
    requires room { is_ok (has_room (length actors.old) (length links.old) text.now) ≡ true }
    ensures answer { result ≡ over counts_of (drawn text.now) }
    ensures actors { actors.new ≡ actors_after (drawn text.now) actors.old }
    ensures links { links.new ≡ links_after (drawn text.now) links.old }
{
    let mut counts = Counts {
        actors: 0,
        links: 0,
        lead: 1,
    };
    for (line, raw) in Lines::of(text) {
        let entry = Line::parse(raw, line)?.entry()?;
        match entry {
            Entry::Lead(lead) => counts.lead = lead,
            Entry::Actor(actor) => {
                actors[counts.actors] = actor;
                counts.actors += 1;
            }
            Entry::Link(link) => {
                links[counts.links] = link;
                counts.links += 1;
            }
        }
    }
    Ok(counts)
}
