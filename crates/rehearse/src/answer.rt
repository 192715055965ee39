// What the program prints for an input.
use crate::calls::{bad_line, steps_of};
use crate::desk::{LINKS, rehearse_text};
use crate::parts::{Parts, parts_of};
use crate::report::report;
use reader::Lines;
use records::Link;
use std::alloc::Global;
use std::io;

/// The longest input that is answered, in bytes.
pub const MOST_BYTES: usize = 1_048_576;

fn rehearsed(heap: Global, drawing: &[u8], calls: Lines<'_>) -> io::Result<String> {
    let mut steps = steps_of(heap, calls)?;
    let mut links = [Link::default(); LINKS];
    match rehearse_text(drawing, &mut links, steps.as_mut_slice()) {
        Ok(slip) => {
            let all = slip.given().saturating_add(slip.back()).min(LINKS);
            Ok(report(heap, steps.as_slice(), &links[0..all])?)
        }
        Err(fault) => Ok(format!(in heap; "{fault}\n")?),
    }
}

/// The answers to the calls and what the links hold; or the one line that stands for an input that is too long, for a bad
/// line, or for a refused drawing.
pub fn answer(heap: Global, input: &[u8]) -> io::Result<String> {
    if input.len() > MOST_BYTES {
        return Ok(String::from_str(heap, "too long\n")?);
    }
    let Parts { drawing, calls } = parts_of(input);
    if let Some(line) = bad_line(calls) {
        return Ok(format!(in heap; "bad line {line}\n")?);
    }
    rehearsed(heap, drawing, calls)
}
