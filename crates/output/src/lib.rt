// The block afterwards: the rows that stay, the new rows behind them, and the sums made anew.
#![tactic(auto)]

ghost use Rattle.std.specs.Prelude.{◌≡◌, ◌+◌, ◌*◌, ◌≤◌, length, take, set};
ghost use Rattle.rows.specs.Rows.{rows_at, row_size, rows_in, with_rows};
ghost use Rattle.layout.specs.Layout.{block_bytes, body_bytes, max_rows, sealed};
ghost use Rattle.block.specs.Opening.{open_answer};
ghost use Rattle.output.specs.Output.{stays, staying};
ghost use Rattle.output.specs.Steps.{begun};

use layout::BODY_BYTES;
use rows::{ROWS_AT, Row};

// ---- the rows that stay

// The row does not hold all three numbers; an edge is given with its second end twice.
fn row_stays(row: Row, x: u8, y: u8, z: u8) -> bool
    ensures { result ≡ stays x y z row }
{
    !rows::holds_face(row, x, y, z)
}

// The rows that stay, in order, are written to the front of another table; their number is returned.
pub fn keep_others(table: &[u8], n: usize, x: u8, y: u8, z: u8, rows: &mut [u8]) -> usize
    requires { (rows_at + row_size * n ≤ length table.now) × (rows_at + row_size * n ≤ length rows.old) }
    ensures { (result ≡ length (staying x y z (rows_in table.now n)))
        × (rows.new ≡ with_rows rows.old 0 (staying x y z (rows_in table.now n))) }
{
    let mut kept: usize = 0;
    for i in 0..n {
        let row = rows::row_in(table, i);
        if row_stays(row, x, y, z) {
            rows::put_row(rows, kept, row);
            kept += 1;
        }
    }
    kept
}

// ---- the block

// The block's points and no rows: the rows are then written into their place, and `finish` ends the block.
pub fn begin(block: &[u8], out: &mut [u8])
    requires { (open_answer block.now ≡ 0) × (length out.old ≡ block_bytes) }
    ensures { out.new ≡ begun block.now out.old }
{
    layout::copy(&block[0..ROWS_AT], out);
    out[ROWS_AT..BODY_BYTES].fill(0);
}

// The number of rows, and the sums made anew.
pub fn finish(out: &mut [u8], n: usize)
    requires { (length out.old ≡ block_bytes) × (n ≤ max_rows) }
    ensures { out.new ≡ sealed (take body_bytes (set out.old 2 n)) }
{
    out[2] = n as u8;
    layout::stamp(out);
}
