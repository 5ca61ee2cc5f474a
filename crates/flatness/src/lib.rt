// Whether a chain is flat, how many rows go, and how many there are afterwards.
#![tactic(auto)]

ghost use Rattle.std.specs.Prelude.{◌+◌, ◌-◌, ◌*◌, ◌≤◌, ◌<◌, cond, not, ◌||◌, ◌≡◌, pos};
ghost use Rattle.volume.specs.Volume.{points_in, same_z};
ghost use Rattle.rows.specs.RowMeasure.{row_d};
ghost use Rattle.rows.specs.Steps.{most_rows};
ghost use Rattle.ring.specs.Ring.{max_ring};
ghost use Rattle.flatness.specs.Steps.{Crossed, across};

use ring::Ring;

// The chain is not flat: it is open, and D(a,b,v1,vm) is not 0.
// Kept: its parameters one by one, since it asks for less than a RingedEdge (Crossed): no table, and a ring or chain of 1 to 10 points.
pub fn not_flat(coordinates: &[u8], count: usize, a: u8, b: u8, closed: bool, ring: Ring) -> bool
    requires { Crossed coordinates.now count a b ring }
    ensures { result ≡ not (closed || same_z (row_d (points_in coordinates.now count) (across a b ring)) (pos 0)) }
{
    if closed {
        return false;
    }
    let last = ring.m as usize - 1;
    let outer = rows::plain(a, b, ring.v[0], ring.v[last], 0);
    let d = tally::row_volume(coordinates, count, outer);
    d != 0
}

// How many rows go: one for each point of a ring, and one fewer for a chain.
fn going(closed: bool, m: usize) -> usize
    requires { 0 < m }
    ensures { result + cond closed 0 1 ≡ m }
{
    if closed {
        return m;
    }
    m - 1
}

// How many rows there are afterwards: two new ones for each triangle.
pub fn rows_after(closed: bool, n: usize, m: usize) -> usize
    requires { (2 ≤ m) × (m ≤ max_ring) × (n ≤ most_rows) × (m ≤ n + cond closed 0 1) }
    ensures { result + m ≡ n + cond closed 0 1 + 2 * (m - 2) }
{
    n - going(closed, m) + 2 * (m - 2)
}
