// From a text to its listing.
ghost use Rattle.std.specs.Prelude.{◌≡◌, ◌+◌, ◌≤◌, [], ◌∷◌, length};
ghost use Rattle.records.specs.Faults.{told};
ghost use Rattle.listing.specs.Listed.{listed};
ghost use Rattle.listing.specs.Listing.{fit_answer, fit_output};
ghost use Rattle.listing.specs.Drawn.{Drawn};

use crate::write::{write_plan, write_refusal};
use paths::{Delay, Reach};
use planner::{Slip, plan};
use reader::read;
use records::{Actor, Fault, Link};

// Reads a text into the tables and plans it.
fn draw(
    text: &[u8],
    actors: &mut [Actor],
    links: &mut [Link],
    delays: &mut [Delay],
    reach: &mut [Reach],
) -> Result<Slip, Fault>
    ensures drawn { Drawn result (listed text.now actors.old links.old delays.old reach.old) actors.new links.new delays.new reach.new }
{
    let counts = read(text, actors, links)?;
    let n = counts.actors;
    plan(
        &actors[0..n],
        links,
        counts.links,
        counts.lead,
        delays,
        reach,
    )
}

/// Reads a text, plans it, and writes the listing, or the line of the refusal, at the start of the output; answers the
/// count of bytes, and later bytes stand. Tables and workspaces are then as reading and planning leave them. Where the
/// output is too short, it refuses with 12 and does not touch the output.
pub fn list(
    text: &[u8],
    actors: &mut [Actor],
    links: &mut [Link],
    delays: &mut [Delay],
    reach: &mut [Reach],
    out: &mut [u8],
) -> Result<usize, Fault>
    ensures answer { result ≡ fit_answer (listed text.now actors.old links.old delays.old reach.old).bytes out.old }
    ensures view { told (λ n. n ∷ []) result ≡ told (λ n. n ∷ []) (fit_answer (listed text.now actors.old links.old delays.old reach.old).bytes out.old) }
    ensures output { out.new ≡ fit_output (listed text.now actors.old links.old delays.old reach.old).bytes out.old }
    ensures actors { actors.new ≡ (listed text.now actors.old links.old delays.old reach.old).actors }
    ensures links { links.new ≡ (listed text.now actors.old links.old delays.old reach.old).links }
    ensures delays { delays.new ≡ (listed text.now actors.old links.old delays.old reach.old).delays }
    ensures reach { reach.new ≡ (listed text.now actors.old links.old delays.old reach.old).reach }
{
    match draw(text, actors, links, delays, reach) {
        Ok(slip) => {
            let all = slip.given() + slip.back();
            write_plan(&slip, &links[0..all], out)
        }
        Err(fault) => write_refusal(fault, out),
    }
}
