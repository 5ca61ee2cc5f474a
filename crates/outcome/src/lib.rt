// The removal of an edge that is decided, carried out: the rows afterwards, written where they belong, and the page row.
#![tactic(auto)]

ghost use Rattle.std.specs.Prelude.{◌≡◌, ◌≤◌, length};
ghost use Rattle.rows.specs.Rows.{version};
ghost use Rattle.layout.specs.Layout.{body_bytes};
ghost use Rattle.block.specs.Opening.{open_answer};
ghost use Rattle.cells.specs.Steps.{cells};
ghost use Rattle.replacement.specs.Steps.{Replaceable};
ghost use Rattle.outcome.specs.Steps.{Replaces};

use cells::CELLS;
use display::page_row;
use edge::RingedEdge;
use page::PageRow;
use replacement::carry_out;
use ring::Ring;
use tally::MeasuredRows;

// How many rows there are afterwards, and the page row.
#[derive(Clone, Copy)]
pub struct After {
    pub n: usize,
    pub page: PageRow,
}

// The rows afterwards, written into a block that is begun.
pub fn replace(
    block: &[u8],
    e: usize,
    f: usize,
    closed: bool,
    ring: Ring,
    region: u8,
    apexes: &[u8; CELLS],
    rows: &mut [u8],
) -> After
    requires block_value { (open_answer block.now ≡ 0) × Replaceable block.now e f closed ring region apexes.now }
    requires apexes_len { (length apexes.now ≡ cells) × (body_bytes ≤ length rows.old) × (version rows.old ≡ version block.now) }
    ensures { Replaces block.now e f rows.old rows.new result }
{
    let edge = RingedEdge::in_block(block, e, f, closed, ring);
    let n = carry_out(&edge, region, apexes, rows);
    let before = MeasuredRows::of_block(block);
    let after = MeasuredRows::of_table(edge.coordinates, edge.count, rows, n);
    After {
        n,
        page: page_row(&before, &after),
    }
}
