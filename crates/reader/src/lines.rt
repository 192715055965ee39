// The lines of a text, with their numbers.
ghost use Rattle.std.specs.Prelude.{◌≡◌, ◌+◌, ◌^◌, ◌≤◌, length};

/// The lines of a text that are left, each with its number.
///
/// A line goes up to its line feed, which it keeps; the last may have none. The first line of a text has the number 1.
#[derive(Clone, Copy)]
pub struct Lines<'a> {
    rest: &'a [u8],
    number: usize,
    ghost fits: { number + length rest.now ≤ 2 ^ 63 },
}

impl<'a> Lines<'a> {
    ghost use Rattle.reader.specs.Lines.{cut, lines_left, number_next, text_left};

    /// All lines of the text.
    pub fn of(text: &'a [u8]) -> Lines<'a>
        ensures lines { lines_left result ≡ cut text.now }
        ensures number { number_next result ≡ 1 }
        ensures text { text_left result ≡ text.now }
    {
        Lines {
            rest: text,
            number: 1,
        }
    }

    /// The text that is left, of which the lines that are left are made.
    pub fn text(&self) -> &'a [u8]
        ensures { result.now ≡ text_left self.now }
    {
        self.rest
    }
}

impl<'a> Iterator for Lines<'a> {
    ghost use Rattle.std.specs.Iterator.{at_most};
    ghost use Rattle.reader.specs.Lines.{TakesLine, text_left};

    type Item = (usize, &'a [u8]);

    ghost next_gives = { TakesLine };

    ghost remaining = { λ l. at_most (length (text_left l)) };

    fn next(&mut self) -> Option<(usize, &'a [u8])> {
        let Lines { rest, number } = *self;
        let line = rest.split_inclusive(|b| *b == b'\n').next()?;
        *self = Lines {
            rest: &rest[line.len()..],
            number: number + 1,
        };
        Some((number, line))
    }
}
