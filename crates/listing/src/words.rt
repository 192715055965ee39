// The words of a listing that stand for marks.
ghost use Rattle.std.specs.Prelude.{◌≡◌, ◌≤◌, length};
ghost use Rattle.listing.specs.Lines.{mark_word};

/// The word of a link's mark.
pub(crate) fn word_of_mark(mark: u8) -> &'static [u8]
    ensures word { result.now ≡ mark_word mark }
    ensures len { length result.now ≤ 4 }
{
    // By number, since a table may hold a mark that is none of the four, and it has a word too.
    match mark {
        0 => b"drop",
        1 => b"kept",
        2 => b"home",
        _ => b"back",
    }
}
