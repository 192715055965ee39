// The worked examples, shown of the definitions.
#![tactic(auto)]

ghost use Rattle.std.specs.Prelude.{◌≡◌, length};
ghost use Rattle.worked.specs.Examples.{examples, calls_made, Hold};

/// How many worked examples there are. Each of them holds, by the definitions: its text is listed as it says, and the calls in a
/// run of its plan are answered as it says.
pub fn worked_examples() -> usize
    ensures hold { Hold examples }
    ensures count { result ≡ length examples }
{
    8
}

/// How many calls the worked examples make. Each of them is answered, by the definitions, as its example says.
pub fn worked_calls() -> usize
    ensures hold { Hold examples }
    ensures count { result ≡ calls_made examples }
{
    11
}
