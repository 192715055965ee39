// The numbers that words write.
ghost use Rattle.std.specs.Prelude.{◌≡◌, ◌≤◌, length};
ghost use Rattle.reader.specs.Numbers.{digits_from, written_number};

// The most digits of a number.
const MOST_DIGITS: usize = 7;

// The number that up to seven digits write; none where a byte is no digit.
// A loop and no `try_fold`: that a step fits rests on how many digits came before, which a closure's bound cannot say.
fn digits(word: &[u8]) -> Option<u32>
    requires { length word.now ≤ 7 }
    ensures { result ≡ digits_from 0 word.now }
{
    let mut n = 0;
    for b in word {
        if !b.is_ascii_digit() {
            return None;
        }
        n = n * 10 + u32::from(*b - b'0');
    }
    Some(n)
}

/// The number that a word writes: one to seven digits, with no zero before others. Any other word writes none.
#[tactic(auto, unfolding(crate::specs::Numbers::written_number))]
pub fn written_number(word: &[u8]) -> Option<u32>
    ensures { result ≡ written_number word.now }
{
    match word {
        [] | [b'0', _, ..] => None,
        _ if word.len() > MOST_DIGITS => None,
        _ => digits(word),
    }
}
