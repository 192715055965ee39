// The blocks of a file of cases: a line of words and numbers, then a text and what is expected of it.
ghost use Rattle.std.specs.Prelude.{length};
ghost use Rattle.std.specs.Iterator.{at_most};
ghost use Rattle.words.specs.Words.{text_left};

use words::Words;

/// What is expected of a case.
#[derive(Clone, Copy)]
pub enum Expected<'a> {
    /// This listing, and nothing after it.
    Listing(&'a [u8]),
    /// The refusal of an output that is too short, which then holds these bytes and nothing else.
    TooShort(&'a [u8]),
}

/// One case: the lengths of what is lent, the text, and what is expected.
#[derive(Clone, Copy)]
pub struct Case<'a> {
    pub actors: usize,
    pub links: usize,
    pub delays: usize,
    pub reach: usize,
    pub out: usize,
    pub text: &'a [u8],
    pub expected: Expected<'a>,
}

/// The cases of a file that are left.
#[derive(Drop)]
pub struct Cases<'a> {
    file: Words<'a>,
}

impl<'a> Cases<'a> {
    /// All cases of a file.
    pub fn of(file: &'a [u8]) -> Cases<'a> {
        Cases {
            file: Words::new(file),
        }
    }
}

// The iterator over stored runs of the other program reads its blocks likewise; what a block holds differs from its first word on.
impl<'a> Iterator for Cases<'a> {
    type Item = Case<'a>;

    ghost remaining = { λ cases. at_most (length (text_left cases.file)) };

    fn next(&mut self) -> Option<Case<'a>> {
        let file = &mut self.file;
        if file.is_empty() {
            return None;
        }
        // The word `short`, or any other of five letters, where the output is too short.
        let is_short = file.word().len() == 5;
        let _name = file.word();
        let actors = file.number();
        let links = file.number();
        let delays = file.number();
        let reach = file.number();
        let out = file.number();
        let text_count = file.number();
        let expected_count = file.number();
        let text = file.part(text_count);
        let expected = file.part(expected_count);
        let _end = file.part(1);
        Some(Case {
            actors,
            links,
            delays,
            reach,
            out,
            text,
            expected: if is_short {
                Expected::TooShort(expected)
            } else {
                Expected::Listing(expected)
            },
        })
    }
}
