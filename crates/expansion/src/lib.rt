// The new rows of the tree that a table of apexes stands for, in written order.
#![tactic(auto)]

ghost use Rattle.std.specs.Prelude.{◌≡◌, ◌+◌, ◌-◌, ◌*◌, ◌<◌, ◌≤◌, length, get_or};
ghost use Rattle.rows.specs.Rows.{rows_at, row_size, with_rows};
ghost use Rattle.ring.specs.Ring.{Site, max_ring};
ghost use Rattle.triangulation.specs.Triangulation.{span, new_rows};
ghost use Rattle.cells.specs.Steps.{cell_at, cells};
ghost use Rattle.expansion.specs.Steps.{Between, SiteRows, rows_over, tree_in};

use candidates::{Bipyramid, two_over};
use cells::{CELLS, cell_at};
use kept_faces::Rim;

// The two rows of a triangle from row `at` on.
fn write_two(table: &mut [u8], at: usize, rows: Bipyramid, region: u8)
    requires { rows_at + row_size * (at + 2) ≤ length table.old }
    ensures { table.new ≡ with_rows table.old at (rows_over rows region) }
{
    let a_row = rows::plain(rows.a, rows.x, rows.y, rows.z, region);
    let b_row = rows::plain(rows.x, rows.y, rows.z, rows.b, region);
    rows::put_row(table, at, a_row);
    rows::put_row(table, at + 1, b_row);
}

// The apex kept for piece (i,j), or 0 for the mark.
fn apex_at(apexes: &[u8; CELLS], i: usize, j: usize) -> usize
    requires { (length apexes.now ≡ cells) × Between apexes.now i j × (1 ≤ i) × (i + 2 ≤ j) × (j ≤ max_ring) }
    ensures { (result ≡ get_or apexes.now (cell_at i j) 0) × (result < j) × ((result ≡ 0 → ⊥) → i < result) }
{
    apexes[cell_at(i, j)] as usize
}

// The new rows of piece (i,j) by any apexes, from row `at` on: those of its own triangle, then of the pieces (i,k) and (k,j).
// The row after the last one written is returned.
pub fn expand(
    table: &mut [u8],
    at: usize,
    apexes: &[u8; CELLS],
    rim: Rim,
    region: u8,
    i: usize,
    j: usize,
) -> usize
    requires apexes_len { (length apexes.now ≡ cells) × Between apexes.now i j × (1 ≤ i) × (i < j) × (j ≤ max_ring) }
    requires i_in_bounds { rows_at + row_size * (at + 2 * (j - i - 1)) ≤ length table.old }
    ensures { (result ≤ at + 2 * (j - i - 1))
        × ((site : Site)
        → SiteRows site rim region i j
        → span (tree_in apexes.now i j) ≡ j - i
        → (table.new ≡ with_rows table.old at (new_rows site i (tree_in apexes.now i j)))
        × (result ≡ at + length (new_rows site i (tree_in apexes.now i j)))) }
{
    if j < i + 2 {
        return at;
    }
    let k = apex_at(apexes, i, j);
    if k == 0 {
        return at;
    }
    write_two(table, at, two_over(rim, i, k, j), region);
    let next = expand(table, at + 2, apexes, rim, region, i, k);
    expand(table, next, apexes, rim, region, k, j)
}
