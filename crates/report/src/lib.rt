// The lines of an answer alone, and of a removal or a flip that is done; a text has room for all of them.
#![tactic(auto)]

ghost use Rattle.std.specs.Prelude.{◌≤◌, ◌≡◌};
ghost use Rattle.layout.specs.Layout.{row_count};
ghost use Rattle.block.specs.Opening.{open_answer};
ghost use Rattle.lines.specs.Lines.{answer_line};
ghost use Rattle.text.specs.Steps.{held, Behind, Whole};
ghost use Rattle.report.specs.Steps.{first_lines, last_lines, rows_of, removal_lines, flip_lines, Written, Printable};

use lines::{put_answer, put_ring, put_rows, put_summary};
use ring::Ring;
use text::{Text, no_text, put_word};

// The line of an answer alone.
pub fn answered(answer: u8) -> Text
    ensures { Whole (answer_line answer) result }
{
    put_answer(no_text(), answer)
}

// The lines `answer 0`, `before` and `after`, from the block that was given and the block that was written.
fn first_lines(block: &[u8], output: &[u8]) -> Text
    requires { (open_answer block.now ≡ 0) × (open_answer output.now ≡ 0) }
    ensures { result ≡ held (first_lines block.now output.now) }
{
    let given = patch::summary(block);
    let Ok(before) = given else {
        return answered(answers::number(&given));
    };
    let written = patch::summary(output);
    let Ok(after) = written else {
        return answered(answers::number(&written));
    };
    let first = put_summary(put_word(put_answer(no_text(), 0), b"before"), before);
    put_summary(put_word(first, b"after"), after)
}

// The lines of the last n rows of the written block.
fn put_last_rows(text: Text, output: &[u8], n: usize) -> Text
    requires { (open_answer output.now ≡ 0) × (n ≤ row_count output.now) }
    ensures { Behind text (last_lines n output.now) result }
{
    let rows = output[2] as usize;
    put_rows(text, output, rows - n, rows)
}

// The lines of a removal that is done: there are two new rows for each of the m - 2 triangles.
pub fn removed(block: &[u8], ring: Ring, output: &[u8]) -> Text
    requires { Printable ring × Written block.now output.now (rows_of ring) }
    ensures { Whole (removal_lines block.now ring output.now) result }
{
    let lines = put_ring(first_lines(block, output), ring);
    let m = ring.m as usize;
    put_last_rows(lines, output, 2 * (m - 2))
}

// The lines of a flip that is done, with n new rows.
pub fn flipped(block: &[u8], n: usize, output: &[u8]) -> Text
    requires { (n ≤ 3) × Written block.now output.now n }
    ensures { Whole (flip_lines block.now n output.now) result }
{
    put_last_rows(first_lines(block, output), output, n)
}
