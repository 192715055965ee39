// The lines of a listing, one by one. They are pushed piece by piece: the contract of `write!` lets it fail where there is room,
// and a listing has no such refusal.
ghost use Rattle.std.specs.Prelude.{◌≡◌};
ghost use Rattle.listing.specs.Lines.{head_line, link_line, cost_line, refusal_line};

use crate::line::Line;
use crate::words::word_of_mark;
use records::{Fault, Link};

/// The first line: how many actors, given links and back links.
#[tactic(auto, unfolding(crate::specs::Lines::head_line))]
pub(crate) fn head_line(actors: usize, given: usize, back: usize) -> Line
    ensures { result ≡ head_line actors given back }
{
    let mut line = Line::new();
    line.push_word(b"actors");
    line.push_field(actors);
    line.push_word(b" links");
    line.push_field(given);
    line.push_word(b" returns");
    line.push_field(back);
    line.push_word(b"\n");
    line
}

/// The line of the link with this number.
#[tactic(auto, unfolding(crate::specs::Lines::link_line))]
pub(crate) fn link_line(number: usize, link: Link) -> Line
    ensures { result ≡ link_line number link }
{
    let mut line = Line::new();
    line.push_word(word_of_mark(link.mark));
    line.push_field(number);
    line.push_field(link.sender as usize);
    line.push_field(link.receiver as usize);
    line.push_field(link.delay as usize);
    line.push_field(link.size as usize);
    line.push_word(b"\n");
    line
}

/// The last line: the costs before and after planning.
#[tactic(auto, unfolding(crate::specs::Lines::cost_line))]
pub(crate) fn cost_line(before: u32, after: u32) -> Line
    ensures { result ≡ cost_line before after }
{
    let mut line = Line::new();
    line.push_word(b"cost");
    line.push_field(before as usize);
    line.push_field(after as usize);
    line.push_word(b"\n");
    line
}

/// The line of a refusal.
#[tactic(auto, unfolding(crate::specs::Lines::refusal_line))]
pub(crate) fn refusal_line(fault: Fault) -> Line
    ensures { result ≡ refusal_line fault }
{
    let mut line = Line::new();
    line.push_word(b"refused");
    line.push_field(fault.refusal.number() as usize);
    line.push_word(b" ");
    line.push_word(fault.layer.word().as_bytes());
    line.push_field(fault.place);
    line.push_word(b"\n");
    line
}
