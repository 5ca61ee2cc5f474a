// A face in a table: whether its numbers are right, the rows that hold it and their apexes, and the three rows that take their place.
#![tactic(auto)]

ghost use Rattle.std.specs.Prelude.{◌+◌, ◌*◌, ◌≤◌, ◌<◌, not, [], ◌∷◌, ◌≡◌, length, IfSome};
ghost use Rattle.lists.specs.Lists.{has};
ghost use Rattle.rows.specs.Rows.{rows_at, row_size, rows_in, with_rows};
ghost use Rattle.layout.specs.Layout.{max_rows};
ghost use Rattle.links.specs.Links.{link};
ghost use Rattle.links.specs.Steps.{LinkedRow};
ghost use Rattle.walk.specs.Walk.{smallest};
ghost use Rattle.ring.specs.Ring.{numbers_wrong};
ghost use Rattle.calls.specs.Flipping.{apex_over};
ghost use Rattle.face.specs.Steps.{sharing_in, with_row, three_of};

use rows::{Regions, Row};

// ---- the face

// A number of the face is not below the point count, or equal to another.
#[tactic(auto, unfolding(ring::specs::Ring::numbers_wrong, lists::specs::Lists::every, lists::specs::Lists::different, lists::specs::Lists::any))]
pub fn face_wrong(count: usize, x: usize, y: usize, z: usize) -> bool
    ensures { result ≡ numbers_wrong count (x ∷ y ∷ z ∷ []) }
{
    count <= x || count <= y || count <= z || x == y || x == z || y == z
}

// The smallest number of the face.
#[tactic(auto, unfolding(walk::specs::Walk::smallest))]
pub fn least(x: u8, y: u8, z: u8) -> u8
    ensures { result ≡ smallest (x ∷ y ∷ z ∷ []) }
{
    x.min(y).min(z)
}

// The face has not the number n.
#[tactic(auto, unfolding(lists::specs::Lists::any))]
fn outside(n: u8, x: u8, y: u8, z: u8) -> bool
    ensures { result ≡ not (has (x ∷ y ∷ z ∷ []) n) }
{
    ![x, y, z].contains(&n)
}

// The apex of a row over the face: its number that the face has not.
fn apex_over(row: Row, x: u8, y: u8, z: u8) -> u8
    ensures { result ≡ apex_over (x ∷ y ∷ z ∷ []) row }
{
    let numbers = [row.p, row.q, row.r, row.s];
    numbers
        .iter()
        .copied()
        .find(|n| outside(*n, x, y, z))
        .unwrap_or(0)
}

// ---- the rows that hold the face

// How many they are, the smaller apex and the other, the row of the smaller, and their regions.
#[derive(Clone, Copy)]
pub struct Sharing {
    pub n: usize,
    pub a: u8,
    pub b: u8,
    pub row: Row,
    pub regions: Regions,
}

// One row more, with its apex, behind those so far, if any.
#[tactic(auto, unfolding(crate::specs::Steps::with_row))]
fn with_row(found: Option<Sharing>, row: Row, apex: u8) -> Sharing
    requires { IfSome found (λ so_far. so_far.n < max_rows) }
    ensures { result ≡ with_row found row apex }
{
    let Some(found) = found else {
        return Sharing {
            n: 1,
            a: apex,
            b: apex,
            row,
            regions: Regions::One(row.region),
        };
    };
    let n = found.n + 1;
    let b = found.b.max(apex);
    let regions = found.regions.with(row.region);
    if apex < found.a {
        return Sharing {
            n,
            a: apex,
            b,
            row,
            regions,
        };
    }
    Sharing {
        n,
        b,
        regions,
        ..found
    }
}

// Those of the first n rows, if any.
#[inline(never)]
pub fn share(table: &[u8], n: usize, x: u8, y: u8, z: u8) -> Option<Sharing>
    requires { (rows_at + row_size * n ≤ length table.now) × (n ≤ max_rows) }
    ensures { result ≡ sharing_in (rows_in table.now n) (x ∷ y ∷ z ∷ []) }
{
    let mut found = None;
    for i in 0..n {
        let row = rows::row_in(table, i);
        if rows::holds_face(row, x, y, z) {
            found = Some(with_row(found, row, apex_over(row, x, y, z)));
        }
    }
    found
}

// ---- the edge in its place

// The three new rows, of a region, from row `at` on: u is the smallest number of the face, v and w follow it in a's row.
pub fn put_three(rows: &mut [u8], at: usize, found: Sharing, region: u8, u: u8)
    requires at_in_bounds { rows_at + row_size * (at + 3) ≤ length rows.old }
    requires linked_row { LinkedRow found.a u found.row }
    ensures { rows.new ≡ with_rows rows.old at
        (three_of found region u (link found.a u found.row).0 (link found.a u found.row).1) }
{
    let Sharing { a, b, row, .. } = found;
    let after = links::link_of(row, a, u);
    rows::put_row(rows, at, rows::plain(a, b, u, after.v, region));
    rows::put_row(rows, at + 1, rows::plain(a, b, after.v, after.w, region));
    rows::put_row(rows, at + 2, rows::plain(a, b, after.w, u, region));
}
