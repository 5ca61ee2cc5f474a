// One triangle over a piece: its rows, its sides and the worst it makes, from what the table keeps for the smaller pieces inside it.
#![tactic(auto)]

ghost use Rattle.std.specs.Prelude.{◌≡◌, ◌<◌, ◌≤◌};
ghost use Rattle.ring.specs.Ring.{max_ring};
ghost use Rattle.candidates.specs.Steps.{Reaching, beside_of, candidate_over, read_side, two_over, worst_over};
ghost use Rattle.cells.specs.Steps.{option_of};

use cells::{CELLS, Table, cell_at};
use kept_faces::{Rim, uses_either};
use keys::Keys;
use quality::Quality;

// The two rows of a triangle x, y, z: (a,x,y,z) and (x,y,z,b).
#[derive(Clone, Copy)]
pub struct Bipyramid {
    pub a: u8,
    pub x: u8,
    pub y: u8,
    pub z: u8,
    pub b: u8,
}

// A triangle's side: two neighbours of the ring, a diagonal with its piece's best worst, or a diagonal that cannot be taken.
#[derive(Clone, Copy)]
pub enum Side {
    Neighbours,
    Diagonal(Quality),
    Barred,
}

// The side (i,j) of a triangle.
pub fn side_at(table: &Table, used: &[bool; CELLS], i: usize, j: usize) -> Side
    requires { (1 ≤ i) × (i < j) × (j ≤ max_ring) }
    ensures { result ≡ read_side table.now used.now i j }
{
    if j <= i + 1 {
        return Side::Neighbours;
    }
    let at = cell_at(i, j);
    if used[at] {
        return Side::Barred;
    }
    match table.best_at(at) {
        None => Side::Barred,
        Some(q) => Side::Diagonal(q),
    }
}

// The two rows of the triangle (i,k,j).
pub fn two_over(rim: Rim, i: usize, k: usize, j: usize) -> Bipyramid
    requires { (1 ≤ i) × (i < k) × (k < j) × (j ≤ max_ring) }
    ensures { result ≡ two_over rim i k j }
{
    Bipyramid {
        a: rim.a,
        x: rim.v[i - 1],
        y: rim.v[k - 1],
        z: rim.v[j - 1],
        b: rim.b,
    }
}

// The worse of a triangle's two rows.
fn worst_of_two(coordinates: &[u8], rows: Bipyramid) -> Quality
    requires { Reaching coordinates.now rows }
    ensures { result ≡ worst_over coordinates.now rows }
{
    let a = volume::point_in(coordinates, rows.a as usize);
    let x = volume::point_in(coordinates, rows.x as usize);
    let y = volume::point_in(coordinates, rows.y as usize);
    let z = volume::point_in(coordinates, rows.z as usize);
    let b = volume::point_in(coordinates, rows.b as usize);
    Quality::of(a, x, y, z).worse_of(Quality::of(x, y, z, b))
}

// The worst of a triangle's rows and of what stands at one of its sides; none, if the side cannot be taken.
fn beside(side: Side, worst: Quality) -> Option<Quality>
    ensures { option_of result ≡ beside_of side worst }
{
    match side {
        Side::Neighbours => Some(worst),
        Side::Diagonal(kept) => Some(worst.worse_of(kept)),
        Side::Barred => None,
    }
}

// The best worst of a piece with this triangle; none, if no admissible triangulation has it. A side that cannot be
// taken is looked at before anything is measured.
pub fn candidate(
    coordinates: &[u8],
    keys: &Keys,
    rows: Bipyramid,
    left: Side,
    right: Side,
) -> Option<Quality>
    requires { Reaching coordinates.now rows }
    ensures { option_of result ≡ candidate_over coordinates.now keys.now rows left right }
{
    if let Side::Barred = left {
        return None;
    }
    if let Side::Barred = right {
        return None;
    }
    if uses_either(keys, rows.x, rows.y, rows.z) {
        return None;
    }
    let q = beside(left, worst_of_two(coordinates, rows))?;
    beside(right, q)
}
