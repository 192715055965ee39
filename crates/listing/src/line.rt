// One line of a listing.
ghost use Rattle.std.specs.Prelude.{◌≡◌, ◌+◌, ◌≤◌, [], ◌∷◌, ◌++◌, length};
ghost use Rattle.listing.specs.Lines.{field};

use arrayvec::ArrayVec;
use itoa::Buffer;
use std::marker::Model;

// The longest line, a link's, has a word of four bytes, five numbers of at most twenty digits, each after a space, and
// a line feed.
const LONGEST: usize = 128;

/// A line as far as it is written.
#[derive(Drop)]
pub(crate) struct Line {
    bytes: ArrayVec<u8, LONGEST>,
}

/// The bytes of the line.
impl Model for Line {
    ghost use Rattle.std.specs.Prelude.{List, ℕ};

    ghost Value = { List ℕ };

    ghost view = { λ l. l.bytes.items };
}

impl Line {
    /// An empty line.
    pub(crate) fn new() -> Line
        ensures { result ≡ [] }
    {
        Line {
            bytes: ArrayVec::new(),
        }
    }

    /// What is written so far.
    pub(crate) fn as_bytes(&self) -> &[u8]
        ensures bytes { result.now ≡ self.now }
        ensures len { length result.now ≤ 128 }
    {
        self.bytes.as_slice()
    }

    /// Adds the bytes of a word.
    pub(crate) fn push_word(&mut self, word: &[u8])
        requires { length self.old + length word.now ≤ 128 }
        ensures { self.new ≡ self.old ++ word.now }
    {
        self.bytes.try_extend_from_slice(word).unwrap();
    }

    /// Adds a space and a number.
    pub(crate) fn push_field(&mut self, n: usize)
        requires { length self.old + 21 ≤ 128 }
        ensures bytes { self.new ≡ self.old ++ field n }
        ensures len { length self.new ≤ length self.old + 21 }
    {
        let mut digits = Buffer::new();
        self.push_word(b" ");
        self.push_word(digits.format(n).as_bytes());
    }
}
