// The closure: from the values of single edges to those of the best paths.
ghost use Rattle.std.specs.Prelude.{◌≡◌, ℕ, ◌+◌, ◌*◌, ◌<◌, ◌≤◌, true, ◌⊎◌, [], length, nat_le, slice_index_or};
ghost use Rattle.records.specs.Faults.{told};
ghost use Rattle.paths.specs.Closure.{entry, round, close_answer, close_table};
ghost use Rattle.paths.specs.Walks.{Chosen};

use crate::algebra::Algebra;
use records::{Fault, Layer, Refusal};

// Lets each path of the row go on by way of the vertex k: `row` and `via` are where its row and the row of k begin.
fn relax_row<T: Algebra>(cells: &mut [T], n: usize, row: usize, via: usize, k: usize)
    requires row_within { row + n ≤ length cells.old }
    requires via_within { via + n ≤ length cells.old }
    requires below { k < n }
    requires apart { (row ≡ via) ⊎ ((row + n ≤ via) ⊎ (via + n ≤ row)) }
    ensures done { (q : ℕ) → q < n → slice_index_or cells.new (row + q) T.ops.none ≡ T.ops.choose (slice_index_or cells.old (row + q) T.ops.none) (T.ops.follow (slice_index_or cells.old (row + k) T.ops.none) (slice_index_or cells.old (via + q) T.ops.none)) }
    ensures rest { (p : ℕ) → (p < row) ⊎ (row + n ≤ p) → slice_index_or cells.new p T.ops.none ≡ slice_index_or cells.old p T.ops.none }
{
    let through = cells[row + k];
    // By index, since a row is written from itself and from another row of the same slice.
    for j in 0..n {
        let next = through.follow(cells[via + j]);
        cells[row + j] = cells[row + j].choose(next);
    }
}

// Lets every path go on by way of the vertex k.
fn relax_all<T: Algebra>(cells: &mut [T], n: usize, k: usize)
    requires within { n * n ≤ length cells.old }
    requires below { k < n }
    ensures { cells.new ≡ round T.ops n k cells.old }
{
    let via = k * n;
    // By index, since the row of k has to stay in reach while the others are written.
    for i in 0..n {
        let row = i * n;
        relax_row(cells, n, row, via, k);
    }
}

/// Turns the first n × n cells, row by sender, from the values of single edges into the choice over all paths of one
/// or more edges. Later cells stand. Refuses with 8 where the table is shorter than that, and then changes nothing.
pub fn close<T: Algebra>(cells: &mut [T], n: usize) -> Result<(), Fault>
    ensures answer { result ≡ close_answer n (length cells.old) }
    ensures view { told (λ _. []) result ≡ told (λ _. []) (close_answer n (length cells.old)) }
    ensures table { cells.new ≡ close_table T.ops n cells.old }
    ensures paths { nat_le (n * n) (length cells.old) ≡ true → (u v : ℕ) → u < n → v < n → Chosen T.ops (entry T.ops cells.old n) n u v (entry T.ops cells.new n u v) }
{
    if n.checked_mul(n).is_none_or(|count| count > cells.len()) {
        return Err(Fault::new(Refusal::ShortWorkspace, Layer::Table, 0));
    }
    // By number, since a round is that of the vertex with this number.
    for k in 0..n {
        relax_all(cells, n, k);
    }
    Ok(())
}
