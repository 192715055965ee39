// The checks of a text's lines, and a pass of one check over the whole text.
ghost use Rattle.std.specs.Prelude.{◌≡◌, ℕ, Result};
ghost use Rattle.records.specs.declared.fault.Fault.{Fault};
ghost use Rattle.reader.specs.Words.{Parsed, held_line};
ghost use Rattle.reader.specs.Reading.{shape_step, numbers_step, order_step, room_step, passed};

use crate::line::Line;
use crate::lines::Lines;
use records::{Fault, Layer, Refusal};

/// A check of each line of a text, with what the lines before it leave to know.
pub(crate) trait Check: Copy {
    ghost step_of: { ℕ → Parsed → Self → Result Self Fault };

    /// What is checked of the lines after this one, or this line's refusal.
    fn step(self, line: usize, parsed: Line<'_>) -> Result<Self, Fault>
        ensures { result ≡ step_of line (held_line parsed.entry) self };
}

/// That each line is made as its letter asks.
#[derive(Clone, Copy)]
pub(crate) struct Shape;

/// That its words are numbers.
#[derive(Clone, Copy)]
pub(crate) struct Numbers;

/// That a lead stands first and no actor after a link.
#[derive(Clone, Copy)]
pub(crate) struct Order {
    /// Whether a link came.
    pub linked: bool,
}

/// That so many actors and links may still come.
#[derive(Clone, Copy)]
pub(crate) struct Room {
    pub actors: usize,
    pub links: usize,
}

impl Check for Shape {
    ghost step_of = { shape_step };

    fn step(self, _line: usize, _parsed: Line<'_>) -> Result<Shape, Fault> {
        Ok(self)
    }
}

impl Check for Numbers {
    ghost step_of = { numbers_step };

    fn step(self, _line: usize, parsed: Line<'_>) -> Result<Numbers, Fault> {
        parsed.entry()?;
        Ok(self)
    }
}

impl Check for Order {
    ghost step_of = { order_step };

    fn step(self, line: usize, parsed: Line<'_>) -> Result<Order, Fault> {
        let refused = Err(Fault::new(Refusal::OutOfOrder, Layer::Text, line));
        match parsed {
            Line::Lead(_) if line != 1 => refused,
            Line::Actor(_, _) if self.linked => refused,
            Line::Link(_, _, _) => Ok(Order { linked: true }),
            _ => Ok(self),
        }
    }
}

impl Check for Room {
    ghost step_of = { room_step };

    fn step(self, line: usize, parsed: Line<'_>) -> Result<Room, Fault> {
        let Room { actors, links } = self;
        match parsed {
            Line::Lead(_) => Ok(self),
            Line::Actor(_, _) if actors > 0 => Ok(Room {
                actors: actors - 1,
                links,
            }),
            Line::Link(_, _, _) if links > 0 => Ok(Room {
                actors,
                links: links - 1,
            }),
            _ => Err(Fault::new(Refusal::NoRoom, Layer::Text, line)),
        }
    }
}

/// One check over the whole text: the first line that it refuses, or the check after the last.
pub(crate) fn pass<C: Check>(text: &[u8], mut check: C) -> Result<C, Fault>
    ensures { result ≡ passed C.step_of check text.now }
{
    for (line, raw) in Lines::of(text) {
        check = check.step(line, Line::parse(raw, line)?)?;
    }
    Ok(check)
}
