// The blocks of a file of stored runs: a line of words and numbers, then the parts of one run.
ghost use Rattle.std.specs.Prelude.{length};
ghost use Rattle.std.specs.Iterator.{at_most};
ghost use Rattle.words.specs.Words.{text_left};

use words::Words;

/// The kind of the guards of a run.
#[derive(Clone, Copy)]
pub enum Kind {
    Counter,
    Pointers,
}

/// One stored run: the lengths that it is opened on, and its parts.
#[derive(Clone, Copy)]
pub struct Stored<'a> {
    pub kind: Kind,
    pub actors: usize,
    pub links: usize,
    pub row: usize,
    pub text: &'a [u8],
    pub changes: &'a [u8],
    pub calls: &'a [u8],
    pub expected: &'a [u8],
}

// A function and no `From`, which would hide that any other word means pointers.
fn kind_of(word: &[u8]) -> Kind {
    if word == b"counter".as_slice() {
        Kind::Counter
    } else {
        Kind::Pointers
    }
}

/// The stored runs of a file that are left.
#[derive(Drop)]
pub struct StoredRuns<'a> {
    file: Words<'a>,
}

impl<'a> StoredRuns<'a> {
    /// All stored runs of a file.
    pub fn of(file: &'a [u8]) -> StoredRuns<'a> {
        StoredRuns {
            file: Words::new(file),
        }
    }
}

// The iterator over cases of the other program reads its blocks likewise; what a block holds differs from its first word on.
impl<'a> Iterator for StoredRuns<'a> {
    type Item = Stored<'a>;

    ghost remaining = { λ runs. at_most (length (text_left runs.file)) };

    fn next(&mut self) -> Option<Stored<'a>> {
        let file = &mut self.file;
        if file.is_empty() {
            return None;
        }
        let _run = file.word();
        let _name = file.word();
        let kind = kind_of(file.word());
        let actors = file.number();
        let links = file.number();
        let row = file.number();
        let text_count = file.number();
        let changes_count = file.number();
        let calls_count = file.number();
        let expected_count = file.number();
        let text = file.part(text_count);
        let changes = file.part(changes_count);
        let calls = file.part(calls_count);
        let expected = file.part(expected_count);
        let _end = file.part(1);
        Some(Stored {
            kind,
            actors,
            links,
            row,
            text,
            changes,
            calls,
            expected,
        })
    }
}
