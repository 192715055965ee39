// Words: what stands between single spaces of a line, and the numbers that words write.
ghost use Rattle.std.specs.Prelude.{◌≡◌, ◌∷◌};
ghost use Rattle.std.specs.Iterator.{YieldsFirstBy, item_count};
ghost use Rattle.reader.specs.Numbers.{number_of};
ghost use Rattle.reader.specs.Words.{split, split_rest, held, words_in, words_left};

use crate::number::written_number;
use records::{Fault, Layer, Refusal};

/// A word: a part of the text, with its line, counted from 1.
#[derive(Clone, Copy)]
pub(crate) struct Word<'a> {
    bytes: &'a [u8],
    line: usize,
}

impl<'a> Word<'a> {
    /// The number that the word writes: one to seven digits, with no zero before others.
    /// Any other word is refused at its line.
    #[tactic(auto, unfolding(crate::specs::Numbers::number_of))]
    pub(crate) fn number(&self) -> Result<u32, Fault>
        ensures { result ≡ number_of (held self.now) }
    {
        written_number(self.bytes).ok_or(Fault::new(Refusal::NoNumber, Layer::Text, self.line))
    }
}

/// The words of a line that are left. Single spaces part them, so that there is one more than spaces.
// Over the library's `split` and `map` the proof of `made_of` did not close: this iterator names the words that are left.
#[derive(Drop)]
pub(crate) struct Words<'a> {
    rest: Option<&'a [u8]>,
    line: usize,
}

impl<'a> Words<'a> {
    /// All words of a part of a line.
    pub(crate) fn of(text: &'a [u8], line: usize) -> Words<'a>
        ensures { words_left result ≡ words_in line text.now }
    {
        Words {
            rest: Some(text),
            line,
        }
    }
}

impl<'a> Iterator for Words<'a> {
    type Item = Word<'a>;

    ghost next_gives = { YieldsFirstBy held words_left };

    ghost remaining = { item_count words_left };

    fn next(&mut self) -> Option<Word<'a>> {
        let (bytes, rest) = first_word(self.rest?);
        self.rest = rest;
        Some(Word {
            bytes,
            line: self.line,
        })
    }
}

// The first word of a text, and what follows the space after it, if one stands there.
fn first_word(text: &[u8]) -> (&[u8], Option<&[u8]>)
    ensures { split text.now ≡ result.0.now ∷ split_rest result.1 }
{
    match text.iter().position(|b| *b == b' ') {
        Some(end) => (&text[..end], Some(&text[end + 1..])),
        None => (text, None),
    }
}
