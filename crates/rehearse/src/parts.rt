// The parts of an input: the text of a drawing, and the lines of calls after the first empty line.
ghost use Rattle.std.specs.Prelude.{◌+◌, ◌≤◌, length};
ghost use Rattle.reader.specs.Lines.{number_next, text_left};

use reader::Lines;

/// An input in its two parts.
#[derive(Clone, Copy)]
pub(crate) struct Parts<'a> {
    pub drawing: &'a [u8],
    /// The lines of calls, with their numbers in the input.
    pub calls: Lines<'a>,
}

/// Parts an input. Without an empty line all of it is the drawing.
pub(crate) fn parts_of(input: &[u8]) -> Parts<'_>
    ensures { number_next result.calls + length (text_left result.calls) ≤ length input.now + 2 }
{
    let mut calls = Lines::of(input);
    let drawing = if calls.any(|(_, line)| matches!(line, [b'\n'])) {
        &input[..input.len() - calls.text().len() - 1]
    } else {
        input
    };
    Parts { drawing, calls }
}
