// Lines: each kind with its words, which stay parts of the text, and the record that a line writes.
ghost use Rattle.std.specs.Prelude.{◌≡◌};
ghost use Rattle.reader.specs.Words.{over, held_line, words_left, made_of, line_of};
ghost use Rattle.reader.specs.Reading.{entry_of};

use crate::word::{Word, Words};
use records::{Actor, Fault, Layer, Link, Refusal};

/// A line of the text, by its letter.
#[derive(Clone, Copy)]
pub(crate) enum Line<'a> {
    /// `R`: the lead.
    Lead(Word<'a>),
    /// `A`: processor and estimate.
    Actor(Word<'a>, Word<'a>),
    /// `L`: sender, receiver and delay.
    Link(Word<'a>, Word<'a>, Word<'a>),
}

/// What a line writes, once its words are read as numbers.
#[derive(Clone, Copy)]
pub(crate) enum Entry {
    Lead(u32),
    Actor(Actor),
    Link(Link),
}

impl<'a> Line<'a> {
    /// The line that the bytes make, the line feed among them. It is refused if its letter is unknown, if the space
    /// after it or the line feed is missing, or if it has too few or too many words.
    #[tactic(auto, unfolding(crate::specs::Words::line_of))]
    pub(crate) fn parse(raw: &'a [u8], line: usize) -> Result<Line<'a>, Fault>
        ensures { over held_line result ≡ line_of line raw.now }
    {
        let [letter, b' ', text @ .., b'\n'] = raw else {
            return Err(Fault::new(Refusal::Misshaped, Layer::Text, line));
        };
        made_of(char::from(*letter), Words::of(text, line), line)
    }

    /// The record that the line writes. The first word that is no number refuses it.
    pub(crate) fn entry(self) -> Result<Entry, Fault>
        ensures { result ≡ entry_of (held_line self.entry) }
    {
        match self {
            Line::Lead(lead) => Ok(Entry::Lead(lead.number()?)),
            Line::Actor(processor, estimate) => Ok(Entry::Actor(Actor {
                processor: processor.number()?,
                estimate: estimate.number()?,
            })),
            Line::Link(sender, receiver, delay) => Ok(Entry::Link(Link {
                sender: sender.number()?,
                receiver: receiver.number()?,
                delay: delay.number()?,
                mark: 0,
                size: 0,
            })),
        }
    }
}

// The line that a letter and words make.
fn made_of<'a>(letter: char, mut words: Words<'a>, line: usize) -> Result<Line<'a>, Fault>
    ensures { over held_line result ≡ made_of line letter (words_left words.entry) }
{
    let words = (words.next(), words.next(), words.next(), words.next());
    match (letter, words) {
        ('R', (Some(lead), None, _, _)) => Ok(Line::Lead(lead)),
        ('A', (Some(processor), Some(estimate), None, _)) => Ok(Line::Actor(processor, estimate)),
        ('L', (Some(sender), Some(receiver), Some(delay), None)) => {
            Ok(Line::Link(sender, receiver, delay))
        }
        _ => Err(Fault::new(Refusal::Misshaped, Layer::Text, line)),
    }
}
