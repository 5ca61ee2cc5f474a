// The rows of a patch, measured: D and quality of one row, and the worst row of a table. `count`, of points, is for the contracts alone:
// it says which patch is measured.
#![tactic(auto)]

ghost use Rattle.std.specs.Prelude.{T, map, ◌≡◌, ◌<◌};
ghost use Rattle.std.proofs.Math.Option.{get_or};
ghost use Rattle.lists.specs.Lists.{every, those};
ghost use Rattle.volume.specs.Volume.{points_in};
ghost use Rattle.quality.specs.Quality.{worst, zero_quality};
ghost use Rattle.rows.specs.Rows.{row_in, holds_edge};
ghost use Rattle.rows.specs.RowMeasure.{row_d, row_quality};
ghost use Rattle.layout.specs.Layout.{fields_of};
ghost use Rattle.layout.specs.Within.{is_byte};
ghost use Rattle.block.specs.Opening.{open_answer};
ghost use Rattle.tally.specs.Tally.{patch_in, worst_of_patch};
ghost use Rattle.tally.specs.Steps.{Placed, Measured, corners_of, worst_with};

use layout::POINTS_AT;
use quality::Quality;
use rows::{ROWS_AT, Row};
use volume::Point;

// ---- one row

// The points at the four corners of a row.
#[derive(Clone, Copy)]
struct Corners {
    p: Point,
    q: Point,
    r: Point,
    s: Point,
}

// The corners of a row over the first `count` points.
fn corners_of(coordinates: &[u8], count: usize, row: Row) -> Corners
    requires { Placed coordinates.now count row }
    ensures { result ≡ corners_of (points_in coordinates.now count) row }
{
    Corners {
        p: volume::point_in(coordinates, row.p as usize),
        q: volume::point_in(coordinates, row.q as usize),
        r: volume::point_in(coordinates, row.r as usize),
        s: volume::point_in(coordinates, row.s as usize),
    }
}

// The quality of a row over the first `count` points.
pub fn row_quality(coordinates: &[u8], count: usize, row: Row) -> Quality
    requires { Placed coordinates.now count row }
    ensures { result ≡ row_quality (points_in coordinates.now count) row }
{
    let Corners { p, q, r, s } = corners_of(coordinates, count, row);
    Quality::of(p, q, r, s)
}

// D of a row over the first `count` points.
pub fn row_volume(coordinates: &[u8], count: usize, row: Row) -> i64
    requires { Placed coordinates.now count row }
    ensures { result ≡ row_d (points_in coordinates.now count) row }
{
    let Corners { p, q, r, s } = corners_of(coordinates, count, row);
    volume::volume(p, q, r, s)
}

// ---- the worst

// The worst of the qualities met, with one more; of equals the earlier one stays.
pub fn worst_with(met: Option<Quality>, q: Quality) -> Option<Quality>
    ensures { result ≡ worst_with met q }
{
    Some(met.map_or(q, |w| w.worse_of(q)))
}

// ---- the rows of a table

// The rows of a table over the points of a patch, which can be measured: the points are held in bytes, the rows are held and their numbers
// are proper.
#[derive(Clone, Copy)]
pub struct MeasuredRows<'a> {
    pub coordinates: &'a [u8],
    pub count: usize,
    pub table: &'a [u8],
    pub n: usize,
    ghost bytes: { T (every is_byte coordinates.now) },
    ghost measured: { Measured coordinates.now count table.now n },
}

impl<'a> MeasuredRows<'a> {
    ghost use Rattle.tally.specs.Patches.{patch_of};

    // The first n rows of a table over the first `count` points.
    pub fn of_table(
        coordinates: &'a [u8],
        count: usize,
        table: &'a [u8],
        n: usize,
    ) -> MeasuredRows<'a>
        requires { Measured coordinates.now count table.now n }
        ensures { patch_of result ≡ patch_in coordinates.now count table.now n }
    {
        MeasuredRows {
            coordinates,
            count,
            table,
            n,
        }
    }

    // The rows of a block that opens.
    pub fn of_block(block: &'a [u8]) -> MeasuredRows<'a>
        requires { open_answer block.now ≡ 0 }
        ensures { patch_of result ≡ fields_of block.now }
    {
        MeasuredRows::of_table(
            &block[POINTS_AT..ROWS_AT],
            block[1] as usize,
            block,
            block[2] as usize,
        )
    }

    // The quality of row i.
    pub fn quality(&self, i: usize) -> Quality
        requires { i < self.now.n }
        ensures { result ≡ row_quality (patch_of self.now).points (row_in self.now.table.now i) }
    {
        row_quality(self.coordinates, self.count, rows::row_in(self.table, i))
    }

    // The worst quality of the rows; the zero quality where there are none.
    pub fn worst(&self) -> Quality
        ensures { result ≡ worst_of_patch (patch_of self.now) }
    {
        if self.n == 0 {
            return Quality::ZERO;
        }
        let mut worst = self.quality(0);
        for i in 1..self.n {
            worst = worst.worse_of(self.quality(i));
        }
        worst
    }

    // The worst quality of those rows that hold the edge a b; the zero quality where there are none.
    #[inline(never)]
    pub fn worst_round(&self, a: u8, b: u8) -> Quality
        ensures { result ≡ get_or (worst (map (row_quality (patch_of self.now).points)
            (those (holds_edge a b) (patch_of self.now).rows))) zero_quality }
    {
        let mut met = None;
        for k in 0..self.n {
            let row = rows::row_in(self.table, k);
            if rows::holds_edge(row, a, b) {
                met = worst_with(met, row_quality(self.coordinates, self.count, row));
            }
        }
        met.unwrap_or(Quality::ZERO)
    }
}
