// The table of pieces of a ring or a chain: filled, and the whole marked where a kept row bars it.
#![tactic(auto)]

ghost use Rattle.pieces.specs.Steps.{KeepsTable};
ghost use Rattle.kept_faces.specs.Steps.{Fillable};
ghost use Rattle.triangulation.specs.Steps.{site_in};

use cells::{Table, cell_at};
use filling::fill_cells;
use kept_faces::{Rim, gather, uses_across};
use keys::Keys;
use ring::{MAX_RING, Ring};

// The ring with, for every piece (i,j), its best worst and its chosen apex.
#[derive(Clone, Copy)]
pub struct Pieces {
    pub m: usize,
    pub ring: [u8; MAX_RING],
    pub table: Table,
}

// The best worst and the apex of every piece of a ring, or of a chain.
// Kept: its parameters one by one, since it asks for less than a RingedEdge (Fillable), and edge_tables calls it with that alone.
#[inline(never)]
pub fn fill(
    coordinates: &[u8],
    count: usize,
    table: &[u8],
    n: usize,
    a: u8,
    b: u8,
    closed: bool,
    ring: Ring,
) -> Pieces
    requires { Fillable coordinates.now count table.now n a b closed ring }
    ensures { KeepsTable (site_in coordinates.now count table.now n a b) result }
{
    let m = ring.m as usize;
    let v = ring.v;
    let rim = Rim { a, b, v };
    let mut keys = Keys::new();
    gather(&mut keys, table, n, rim, m);
    let mut pieces = Pieces {
        m,
        ring: v,
        table: Table::EMPTY,
    };
    fill_cells(&mut pieces.table, coordinates, rim, &keys, m);
    if uses_across(&keys, closed, a, b, v[0], v[m - 1]) {
        pieces.table.store(cell_at(1, m), None);
    }
    pieces
}
