// One line of calls.
ghost use Rattle.std.specs.Prelude.{◌≡◌};
ghost use Rattle.std.specs.Option.{option_map};
ghost use Rattle.rehearse.specs.Calls.{between, call_of};

use reader::written_number;
use running::Call;

// What stands between a word and the line feed at the end of a line, if the line begins and ends so.
fn between<'a>(word: &[u8], line: &'a [u8]) -> Option<&'a [u8]>
    ensures { option_map (λ x. x.now) result ≡ between word.now line.now }
{
    line.strip_prefix(word)?.strip_suffix(b"\n")
}

/// The call that a line makes: `start N`, `finish N` or `cells N`, with the line feed that ends it.
/// It answers an `Option`, since there is nothing to say of a line that makes none: a `TryFrom` would want an error.
pub fn call_of(line: &[u8]) -> Option<Call>
    ensures { result ≡ call_of line.now }
{
    if let Some(word) = between(b"start ", line) {
        return Some(Call::Start(written_number(word)? as usize));
    }
    if let Some(word) = between(b"finish ", line) {
        return Some(Call::Finish(written_number(word)? as usize));
    }
    let word = between(b"cells ", line)?;
    Some(Call::Cells(written_number(word)? as usize))
}
