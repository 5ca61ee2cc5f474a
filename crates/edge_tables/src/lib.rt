// The ring round an edge of a block, and its apex by the table of its pieces.
#![tactic(auto)]

ghost use Rattle.std.specs.Prelude.{◌≡◌};
ghost use Rattle.edge_tables.specs.EdgeTables.{ring_at, top_apex};

use layout::POINTS_AT;
use ring::Ring;
use rows::ROWS_AT;

// The closed ring round the edge between the points e and f, if e < f; where there is none it has no points.
pub fn ring_at(block: &[u8], e: usize, f: usize) -> Ring
    ensures { result ≡ ring_at block.now e f }
{
    if f <= e {
        return Ring::EMPTY;
    }
    let Ok(()) = block::opening(block) else {
        return Ring::EMPTY;
    };
    if block[1] as usize <= f {
        return Ring::EMPTY;
    }
    let Ok(found) = ring::find(block, block[2] as usize, e as u8, f as u8, false) else {
        return Ring::EMPTY;
    };
    found.ring
}

// The apex of that ring, by the table of its pieces; 0 where there is none.
pub fn apex_at(block: &[u8], e: usize, f: usize) -> u64
    ensures { result ≡ top_apex block.now e f }
{
    let ring = ring_at(block, e, f);
    if ring.m == 0 {
        return 0;
    }
    let pieces = pieces::fill(
        &block[POINTS_AT..ROWS_AT],
        block[1] as usize,
        block,
        block[2] as usize,
        e as u8,
        f as u8,
        true,
        ring,
    );
    let at = cells::cell_at(1, pieces.m);
    pieces.table.apexes[at] as u64
}
