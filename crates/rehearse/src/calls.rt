// The lines of calls.
ghost use Rattle.std.specs.Prelude.{◌≡◌, IfOk};
ghost use Rattle.reader.specs.Lines.{lines_left, number_next};
ghost use Rattle.rehearse.specs.Calls.{first_bad, steps_of};

use crate::call::call_of;
use reader::Lines;
use running::{Answer, Step};
use std::alloc::{AllocError, Global};

/// The number of the first of the lines that makes no call.
pub(crate) fn bad_line(mut calls: Lines<'_>) -> Option<usize>
    ensures { result ≡ first_bad (number_next calls.entry) (lines_left calls.entry) }
{
    let (number, _) = calls.find(|(_, line)| call_of(line).is_none())?;
    Some(number)
}

/// The calls that the lines make, none of them answered yet.
pub(crate) fn steps_of(heap: Global, calls: Lines<'_>) -> Result<Vec<Step>, AllocError>
    ensures { IfOk result (λ v. v.items ≡ steps_of (lines_left calls.entry)) }
{
    let answer = Answer::Open;
    calls
        .filter_map(|(_, line)| call_of(line))
        .map(|call| Step { call, answer })
        .collect(heap)
}
