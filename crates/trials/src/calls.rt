// The calls of a stored run, as records.
ghost use Rattle.std.specs.Prelude.{length};
ghost use Rattle.std.specs.Iterator.{at_most};
ghost use Rattle.words.specs.Words.{text_left};

use running::{Answer, Call, Step};
use std::alloc::{AllocError, Global};
use words::Words;

// The calls that are left: a word and a number for each, wherever lines end.
#[derive(Drop)]
struct Calls<'a> {
    words: Words<'a>,
}

// The call of a word and a number. A function and no `From`, which would hide that any other word asks for cells.
fn call_of(word: &[u8], number: usize) -> Call {
    match word {
        b"start" => Call::Start(number),
        b"finish" => Call::Finish(number),
        _ => Call::Cells(number),
    }
}

impl<'a> Iterator for Calls<'a> {
    type Item = Call;

    ghost remaining = { λ calls. at_most (length (text_left calls.words)) };

    fn next(&mut self) -> Option<Call> {
        if self.words.is_empty() {
            return None;
        }
        let word = self.words.word();
        let number = self.words.number();
        Some(call_of(word, number))
    }
}

/// The calls, none of them answered yet.
pub fn steps_of(heap: Global, calls: &[u8]) -> Result<Vec<Step>, AllocError> {
    let answer = Answer::Open;
    let words = Words::new(calls);
    Calls { words }
        .map(|call| Step { call, answer })
        .collect(heap)
}
