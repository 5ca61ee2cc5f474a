// An edge in a block: the block and the output block are right, the ends are put in order and the ring or chain round them is found.
#![tactic(auto)]

ghost use Rattle.std.specs.Prelude.{◌<◌, min, max, ◌≡◌};
ghost use Rattle.answers.specs.Answers.{first_refusal, answer_of};
ghost use Rattle.layout.specs.Layout.{point_count, row_count, coordinates_of};
ghost use Rattle.block.specs.Opening.{open_answer};
ghost use Rattle.calls.specs.Removing.{block_tests};
ghost use Rattle.edge.specs.Steps.{edge_found, RingedFact};

use answers::Refusal;
use layout::{BLOCK_BYTES, POINTS_AT};
use ring::{Found, Ring};
use rows::ROWS_AT;

// An edge with its ring or chain, in a table that keeps the mesh rule and whose marks agree.
#[derive(Clone, Copy)]
pub struct RingedEdge<'a> {
    pub coordinates: &'a [u8],
    pub count: usize,
    pub table: &'a [u8],
    pub n: usize,
    pub a: u8,
    pub b: u8,
    pub closed: bool,
    pub ring: Ring,
    ghost ringed: { RingedFact coordinates.now count table.now n a b closed ring },
}

impl<'a> RingedEdge<'a> {
    ghost use Rattle.edge.specs.Edges.{IsEdgeOf};

    // The edge between e and f of a block that opens, its ends in order, with the ring or chain that was found round it.
    pub fn in_block(block: &'a [u8], e: usize, f: usize, closed: bool, ring: Ring) -> RingedEdge<'a>
        requires opens { open_answer block.now ≡ 0 }
        requires ends { (e < 256) × (f < 256) }
        requires ringed { RingedFact (coordinates_of block.now) (point_count block.now) block.now (row_count block.now) (min e f) (max e f) closed ring }
        ensures { IsEdgeOf block.now e f closed ring result }
    {
        RingedEdge {
            coordinates: &block[POINTS_AT..ROWS_AT],
            count: block[1] as usize,
            table: block,
            n: block[2] as usize,
            a: smaller(e, f),
            b: larger(e, f),
            closed,
            ring,
        }
    }
}

// Answers 1 to 8 of a call with a block and an output block: both lengths before anything in the block.
pub fn blocks_answer(block: &[u8], out: &[u8]) -> Result<(), Refusal>
    ensures { result ≡ answer_of (first_refusal (block_tests block.now out.now)) }
{
    if block.len() != BLOCK_BYTES {
        return Err(Refusal::LENGTH);
    }
    if out.len() != BLOCK_BYTES {
        return Err(Refusal::LENGTH);
    }
    block::opening(block)
}

// The smaller end.
pub fn smaller(e: usize, f: usize) -> u8
    requires { (e < 256) × (f < 256) }
    ensures { result ≡ min e f }
{
    e.min(f) as u8
}

// The larger end.
pub fn larger(e: usize, f: usize) -> u8
    requires { (e < 256) × (f < 256) }
    ensures { result ≡ max e f }
{
    e.max(f) as u8
}

// In a block that opens, the ring round the edge or, where chains are taken too, the chain, and the regions of its rows; or one of the
// answers 9 to 13.
pub fn edge_at(block: &[u8], e: usize, f: usize, chains: bool) -> Result<Found, Refusal>
    requires { open_answer block.now ≡ 0 }
    ensures { result ≡ edge_found chains block.now e f }
{
    let count = block[1] as usize;
    if count <= e {
        return Err(Refusal::BAD_NUMBER);
    }
    if count <= f {
        return Err(Refusal::BAD_NUMBER);
    }
    if e == f {
        return Err(Refusal::BAD_NUMBER);
    }
    ring::find(
        block,
        block[2] as usize,
        smaller(e, f),
        larger(e, f),
        chains,
    )
}
