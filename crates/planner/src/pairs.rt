// Values for the pairs of actors.
ghost use Rattle.std.specs.Prelude.{◌≡◌, ℕ, ◌+◌, ◌*◌, ◌<◌, ◌≤◌, length};

use paths::Algebra;

/// The values of a table with n rows, one for each sender, in its first n × n cells.
#[derive(Drop)]
pub(crate) struct Pairs<'c, T> {
    pub(crate) cells: &'c [T],
    pub(crate) n: usize,
    ghost few: { n ≤ 64 },
    ghost room: { n * n ≤ length cells.now },
}

/// Where the value for `u` and `v` stands in a table of n rows.
pub(crate) fn place(n: usize, u: usize, v: usize) -> usize
    requires few { n ≤ 64 }
    requires ends { (u < n) × (v < n) }
    ensures value { result ≡ u * n + v }
    ensures within { result < n * n }
{
    u * n + v
}

impl<T: Algebra> Pairs<'_, T> {
    ghost use Rattle.std.specs.Prelude.{◌≡◌, ◌<◌};
    ghost use Rattle.paths.specs.Closure.{entry};

    /// The value for `u` and `v`.
    pub(crate) fn at(&self, u: usize, v: usize) -> T
        requires { (u < self.now.n) × (v < self.now.n) }
        ensures { result ≡ entry T.ops self.now.cells.now self.now.n u v }
    {
        self.cells[place(self.n, u, v)]
    }
}
