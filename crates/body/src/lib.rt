// The first 508 bytes of a block: answers 3 to 8, of which 6 is unused, and 22.
#![tactic(auto)]

ghost use Rattle.std.specs.Prelude.{◌+◌, ◌≤◌, ◌<◌, not, ◌≡◌, eqb, length};
ghost use Rattle.lists.specs.Lists.{any};
ghost use Rattle.answers.specs.Answers.{first_refusal, answer_of};
ghost use Rattle.layout.specs.Layout.{body_bytes, max_points, max_rows, point_count, row_count, fields_of};
ghost use Rattle.body.specs.Body.{zero_missing, number_wrong, face_twice, marks_disagree, body_tests};

use answers::Refusal;
use layout::{BODY_BYTES, MAX_POINTS, MAX_ROWS, POINTS_AT, ZEROS_AT};
use rows::{ROW_SIZE, ROWS_AT, VERSION_AT};
use volume::POINT_SIZE;

// Some byte is not zero.
fn not_zero(part: &[u8]) -> bool
    ensures { result ≡ any (λ x. not (eqb x 0)) part.now }
{
    part.iter().any(|x| *x != 0)
}

// A byte that must be zero is not: the bytes before the points, and those of points and rows beyond the counts.
fn zero_missing(block: &[u8]) -> bool
    requires body_bytes_in_bounds { body_bytes ≤ length block.now }
    requires block_bound { (point_count block.now ≤ max_points) × (row_count block.now ≤ max_rows) }
    ensures { result ≡ zero_missing block.now }
{
    if not_zero(&block[ZEROS_AT..POINTS_AT]) {
        return true;
    }
    let points_end = POINTS_AT + POINT_SIZE * (block[1] as usize);
    if not_zero(&block[points_end..ROWS_AT]) {
        return true;
    }
    let rows_end = ROWS_AT + ROW_SIZE * (block[2] as usize);
    not_zero(&block[rows_end..BODY_BYTES])
}

// A row's number is not below the point count, or repeats.
fn number_wrong(block: &[u8]) -> bool
    requires body_bytes_in_bounds { body_bytes ≤ length block.now }
    requires block_bound { row_count block.now ≤ max_rows }
    ensures { result ≡ number_wrong (fields_of block.now) }
{
    let rows = block[2] as usize;
    !mesh::all_fit(block, rows, block[1] as usize)
}

// A directed face stands in two rows.
fn face_twice(block: &[u8]) -> bool
    requires body_bytes_in_bounds { body_bytes ≤ length block.now }
    requires block_bound { row_count block.now ≤ max_rows }
    ensures { result ≡ face_twice (fields_of block.now) }
{
    let rows = block[2] as usize;
    !keys::all_apart(block, rows)
}

// A face stands in two rows, one of which marks it and the other does not.
fn marks_disagree(block: &[u8]) -> bool
    requires body_bytes_in_bounds { body_bytes ≤ length block.now }
    requires block_bound { row_count block.now ≤ max_rows }
    ensures { result ≡ marks_disagree (fields_of block.now) }
{
    let rows = block[2] as usize;
    !marking::all_agree(block, rows)
}

// Answers 3 to 8 and 22, which opening and sealing share.
pub fn body_answer(block: &[u8]) -> Result<(), Refusal>
    requires { body_bytes ≤ length block.now }
    ensures { result ≡ answer_of (first_refusal (body_tests block.now)) }
{
    if !layout::is_version(block[VERSION_AT]) {
        return Err(Refusal::NOT_A_VERSION);
    }
    if MAX_POINTS < block[1] as usize {
        return Err(Refusal::COUNT);
    }
    if MAX_ROWS < block[2] as usize {
        return Err(Refusal::COUNT);
    }
    if zero_missing(block) {
        return Err(Refusal::NOT_ZERO);
    }
    if number_wrong(block) {
        return Err(Refusal::ROW);
    }
    if face_twice(block) {
        return Err(Refusal::FACE_TWICE);
    }
    if marks_disagree(block) {
        return Err(Refusal::MARKS_DISAGREE);
    }
    Ok(())
}
