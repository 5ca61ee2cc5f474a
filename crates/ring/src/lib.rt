// The ring round an edge, or the open chain.
#![tactic(auto)]

ghost use Rattle.std.specs.Prelude.{◌≡◌, ◌≤◌, length, take};
ghost use Rattle.rows.specs.Rows.{rows_in};
ghost use Rattle.links.specs.Steps.{Table};
ghost use Rattle.walk.specs.Steps.{went_by};
ghost use Rattle.ring.specs.Ring.{max_ring, ring_with};
ghost use Rattle.ring.specs.Steps.{sized_of, found_of, edge_in};

use answers::Refusal;
use rows::Regions;
use walk::{MOST_POINTS, Trail};

// The smallest and the largest m.
const MIN_RING: usize = 3;

pub const MAX_RING: usize = 10;

// The ring, or the chain: m points, v1 to vm from place 0 on; the places after them are zero.
#[derive(Clone, Copy)]
pub struct Ring {
    pub m: u8,
    pub v: [u8; MAX_RING],
}

impl Ring {
    // No ring: no points.
    pub const EMPTY: Ring = Ring {
        m: 0,
        v: [0; MAX_RING],
    };
}

// What finding gives: whether the links close, the ring or the chain, and the regions of its rows.
#[derive(Clone, Copy)]
pub struct Found {
    pub closed: bool,
    pub ring: Ring,
    pub regions: Regions,
}

// The ring of the first m points.
fn ring_of(v: [u8; MOST_POINTS], m: usize) -> Ring
    requires { m ≤ max_ring }
    ensures { result ≡ ring_with (take m v) }
{
    let mut ring = [0; MAX_RING];
    ring[..m].copy_from_slice(&v[..m]);
    Ring {
        m: m as u8,
        v: ring,
    }
}

// The ring or the chain of the points that a walk went by, with the regions of its rows, or 13.
fn sized(trail: Trail, regions: Regions) -> Result<Found, Refusal>
    requires { trail.m ≤ length trail.v }
    ensures { result ≡ sized_of trail.closed (went_by trail) regions }
{
    if trail.m < MIN_RING {
        return Err(Refusal::RING_LENGTH);
    }
    if MAX_RING < trail.m {
        return Err(Refusal::RING_LENGTH);
    }
    let v = trail.v;
    Ok(Found {
        closed: trail.closed,
        ring: ring_of(v, trail.m),
        regions,
    })
}

// The ring round the edge a, b in the first n rows of a table or, where chains are taken, the chain; or the refusal: 10, 11, 12 or 13.
pub fn find(table: &[u8], n: usize, a: u8, b: u8, chains: bool) -> Result<Found, Refusal>
    requires { Table table.now n a b }
    ensures { result ≡ found_of chains (edge_in (rows_in table.now n) a b) }
{
    let round = links::gather(table, n, a, b);
    let links = round.links;
    let regions = round.regions;
    if links.n == 0 {
        return Err(Refusal::NOT_HELD);
    }
    let trail = walk::walk(table, a, b, links, walk::first_point(links));
    if trail.closed {
        if trail.m < links.n {
            return Err(Refusal::CIRCLES);
        }
        return sized(trail, regions);
    }
    if !chains {
        return Err(Refusal::NOT_CLOSED);
    }
    if trail.m <= links.n {
        return Err(Refusal::NOT_CLOSED);
    }
    sized(trail, regions)
}
