// Words and numbers of a text, read one after the other.
#![tactic(auto)]

ghost use Rattle.std.specs.Prelude.{◌≡◌, ◌≤◌, ◌==◌, ℕ, length, take, drop};
ghost use Rattle.words.specs.Words.{ends_word, word_of, after_word, with_digit, number_of, text_left};
ghost use Rattle.std.specs.List.{position_or_len};

// Where the first space or line feed stands, or the length.
fn word_end(text: &[u8]) -> usize
    ensures value { result ≡ position_or_len ends_word text.now }
    ensures within { result ≤ length text.now }
{
    text.iter()
        .position(|b| *b == b' ' || *b == b'\n')
        .unwrap_or(text.len())
}

// The number so far with one digit more.
fn with_digit(n: usize, digit: u8) -> usize
    ensures { result ≡ with_digit n digit }
{
    n.saturating_mul(10)
        .saturating_add(usize::from(digit.saturating_sub(b'0')))
}

/// What is left of a text of words, each of which a space or a line feed ends.
// Seen by `text_left`, and not by an `impl Model`, since it is copied: today's checker refuses that beside a model where a struct
// has a lifetime.
#[derive(Clone, Copy)]
pub struct Words<'a> {
    rest: &'a [u8],
}

impl<'a> Words<'a> {
    /// All of a text.
    pub fn new(text: &'a [u8]) -> Words<'a>
        ensures { text_left result ≡ text.now }
    {
        Words { rest: text }
    }

    /// Whether nothing is left.
    pub fn is_empty(&self) -> bool
        ensures { result ≡ length (text_left self.now) == 0 }
    {
        self.rest.is_empty()
    }

    /// The bytes up to the next space or line feed, which is passed over.
    pub fn word(&mut self) -> &'a [u8]
        ensures word { result.now ≡ word_of (text_left self.old) }
        ensures rest { text_left self.new ≡ after_word (text_left self.old) }
    {
        let (word, rest) = self.rest.split_at(word_end(self.rest));
        self.rest = rest.get(1..).unwrap_or(rest);
        word
    }

    /// The number that the next word writes, or the largest if it is larger. The word is taken to be of digits: any other byte
    /// stands for what it is above the byte `0`, or for 0.
    pub fn number(&mut self) -> usize
        ensures number { result ≡ number_of (word_of (text_left self.old)) }
        ensures rest { text_left self.new ≡ after_word (text_left self.old) }
    {
        self.word().iter().fold(0, |n, digit| with_digit(n, *digit))
    }

    /// The next `count` bytes, or as many as there are.
    pub fn part(&mut self, count: usize) -> &'a [u8]
        ensures part { result.now ≡ take count (text_left self.old) }
        ensures rest { text_left self.new ≡ drop count (text_left self.old) }
    {
        let (part, rest) = self.rest.split_at(count.min(self.rest.len()));
        self.rest = rest;
        part
    }
}
