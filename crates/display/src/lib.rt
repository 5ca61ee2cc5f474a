// What the page is shown: the quality of each row of a block, one f64 a row; and the page row.
#![tactic(auto)]

ghost use Rattle.std.specs.Prelude.{◌≤◌, ◌≡◌, length, get_or};
ghost use Rattle.page.specs.Page.{plus_zero, shown, page_row};
ghost use Rattle.layout.specs.Layout.{max_rows};
ghost use Rattle.answers.specs.Answers.{answer_of};
ghost use Rattle.tally.specs.Tally.{worst_of_patch};
ghost use Rattle.tally.specs.Patches.{patch_of};
ghost use Rattle.display.specs.Display.{shown_answer, shown_of, shown_elements};

use answers::Refusal;
use layout::MAX_ROWS;
use page::{PageRow, Shown};
use tally::MeasuredRows;

// Element i: what is shown of row i, and zero behind the rows.
fn element(rows: &MeasuredRows, i: usize) -> f64
    ensures { result ≡ get_or (shown_of (patch_of rows.now)) i plus_zero }
{
    if rows.n <= i {
        return 0.0;
    }
    Shown::of(rows.quality(i)).signed()
}

// Writes every element.
fn put_elements(rows: &MeasuredRows, out: &mut [f64])
    requires { (rows.now.n ≤ max_rows) × (length out.old ≡ max_rows) }
    ensures { out.new ≡ shown_of (patch_of rows.now) }
{
    for (i, shown) in out.iter_mut().enumerate() {
        *shown = element(rows, i);
    }
}

// For each row of the block its shown quality with its sign, and zeros behind the rows; a refusal leaves every element.
pub fn shown(block: &[u8], out: &mut [f64]) -> Result<(), Refusal>
    ensures answer { result ≡ answer_of (shown_answer block.now out.old) }
    ensures elements { out.new ≡ shown_elements block.now out.old }
{
    if out.len() != MAX_ROWS {
        return Err(Refusal::LENGTH);
    }
    block::opening(block)?;
    put_elements(&MeasuredRows::of_block(block), out);
    Ok(())
}

// The page row: the worst row of a table, before, and that of another over the same points, after.
pub fn page_row(before: &MeasuredRows, after: &MeasuredRows) -> PageRow
    ensures { result ≡ page_row (shown (worst_of_patch (patch_of before.now))) (shown (worst_of_patch (patch_of after.now))) }
{
    PageRow::of(Shown::of(before.worst()), Shown::of(after.worst()))
}
