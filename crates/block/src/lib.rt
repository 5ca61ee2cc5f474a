// Opening and sealing a block: answers 1 to 8 and 22.
#![tactic(auto)]

ghost use Rattle.std.specs.Prelude.{◌≡◌};
ghost use Rattle.answers.specs.Answers.{answer_of};
ghost use Rattle.block.specs.Opening.{open_answer, open_gives, seal_answer, seal_bytes};

use answers::Refusal;
use layout::{BLOCK_BYTES, BODY_BYTES, Fields};

// The answer of opening.
pub fn opening(block: &[u8]) -> Result<(), Refusal>
    ensures { result ≡ answer_of (open_answer block.now) }
{
    if block.len() != BLOCK_BYTES {
        return Err(Refusal::LENGTH);
    }
    if layout::sum_wrong(block) {
        return Err(Refusal::SUM);
    }
    body::body_answer(block)
}

// Opens a block: its fields, or the refusal.
pub fn open(block: &[u8]) -> Result<Fields, Refusal>
    ensures { result ≡ open_gives block.now }
{
    opening(block)?;
    Ok(layout::fields_of(block))
}

// Seals the first 508 bytes of a block: writes them and their sums, or refuses and leaves every output byte.
pub fn seal(body: &[u8], out: &mut [u8]) -> Result<(), Refusal>
    ensures answer { result ≡ answer_of (seal_answer body.now out.old) }
    ensures bytes { out.new ≡ seal_bytes body.now out.old }
{
    if body.len() != BODY_BYTES {
        return Err(Refusal::LENGTH);
    }
    if out.len() != BLOCK_BYTES {
        return Err(Refusal::LENGTH);
    }
    body::body_answer(body)?;
    layout::copy(body, out);
    layout::stamp(out);
    Ok(())
}
