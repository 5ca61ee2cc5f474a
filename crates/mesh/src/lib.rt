// The numbers of the rows of a table: below the point count and all different.
#![tactic(auto)]

ghost use Rattle.std.specs.Prelude.{◌+◌, ◌*◌, ◌<◌, ◌≤◌, ◌≡◌, ltb, length};
ghost use Rattle.lists.specs.Lists.{every, different};
ghost use Rattle.rows.specs.Rows.{rows_at, row_size, rows_in, numbers};
ghost use Rattle.mesh.specs.Mesh.{numbers_fit};

use rows::Row;

// The numbers of a row are below the point count.
#[tactic(auto, using(lists::proofs::Tests::and_true), unfolding(lists::specs::Lists::every))]
fn below(row: Row, count: usize) -> bool
    ensures { result ≡ every (λ n. ltb n count) (numbers row) }
{
    (row.p as usize) < count
        && (row.q as usize) < count
        && (row.r as usize) < count
        && (row.s as usize) < count
}

// The numbers of a row are all different.
#[tactic(auto, using(lists::proofs::Tests::and_true, lists::proofs::Tests::or_false, lists::proofs::Tests::not_or), unfolding(lists::specs::Lists::any, lists::specs::Lists::different))]
fn unlike(row: Row) -> bool
    ensures { result ≡ different (numbers row) }
{
    row.p != row.q
        && row.p != row.r
        && row.p != row.s
        && row.q != row.r
        && row.q != row.s
        && row.r != row.s
}

// The numbers of a row are proper.
#[tactic(auto, unfolding(crate::specs::Mesh::numbers_fit))]
fn fits(row: Row, count: usize) -> bool
    ensures { result ≡ numbers_fit count row }
{
    below(row, count) && unlike(row)
}

// The numbers of the first n rows are proper.
pub fn all_fit(table: &[u8], n: usize, count: usize) -> bool
    requires { rows_at + row_size * n ≤ length table.now }
    ensures { result ≡ every (numbers_fit count) (rows_in table.now n) }
{
    (0..n).all(|i| fits(rows::row_in(table, i), count))
}
